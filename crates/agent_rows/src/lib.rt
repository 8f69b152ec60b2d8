// An agent as a row of 64-bit numbers that a caller lends: plain data, which may be copied, stored and compared. A title is read out of
// its places and put back there; the limits of all numbers are tested, and lanes held are counted, in place.
#![tactic(auto)]

use rules::{COUNT_PLACES, LANE_PLACES, TITLES_MAX};

pub mod holding;
pub mod laying;
pub mod reading;
pub mod testing;

// The layout's version, the row's first number.
pub const ROW_VERSION: u64 = 1;

// A sequence fits 32 bits.
pub const SEQUENCE_END: u64 = 4_294_967_296;

// The places of the version, of the last accepted notice's sequence, of the pool and of the last accepted event's time, and
// where the titles begin.
pub const VERSION_AT: usize = 0;

pub const SEQUENCE_AT: usize = 1;

pub const POOL_AT: usize = 2;

pub const LAST_AT: usize = 3;

pub const TITLES_AT: usize = 4;

// The places of a title's numbers, counted from its first.
pub const MODE_AT: usize = 0;

pub const KIND_AT: usize = 1;

pub const OPENED_AT: usize = 2;

pub const LENGTH_AT: usize = 3;

pub const FLOOR_AT: usize = 4;

pub const CAP_AT: usize = 5;

pub const COUNT_AT: usize = 6;

pub const MARK_AT: usize = 7;

pub const TITLE_LAST_AT: usize = 8;

pub const TUNED_AT: usize = 9;

pub const ENDS_AT: usize = 10;

pub const DROPPED_AT: usize = ENDS_AT + COUNT_PLACES;

pub const OWED_AT: usize = DROPPED_AT + LANE_PLACES;

// How many numbers a title has.
pub const TITLE_PLACES: usize = OWED_AT + LANE_PLACES;

// How many numbers an agent has.
pub const ROW_LENGTH: usize = TITLES_AT + TITLES_MAX * TITLE_PLACES;
