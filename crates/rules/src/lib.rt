// The two tables that every call cites: the limits of each number, and what each refusal's number means.
// Definitions of the same names stand in specs/; a crate whose code and contract cite different tables is not proved.
#![tactic(auto)]

pub mod answers;
pub mod truth;

ghost use Rattle.std.specs.Prelude.{◌≡◌};
ghost use Rattle.rules.specs.Limits.{within as inside};

// 01, "What the product holds"; the largest count, cap and lane by 02's request 10.
pub const POOL_MIN: u64 = 1;

pub const POOL_MAX: u64 = 64;

pub const ID_MAX: u64 = 15;

pub const FLOOR_MIN: u64 = 2;

pub const FLOOR_MAX: u64 = 5;

pub const COUNT_MIN: u64 = 2;

pub const COUNT_MAX: u64 = 12;

// The largest count of a skip-forward title, by 02's request 12.
pub const STEADY_MAX: u64 = 10;

pub const LENGTH_MIN: u64 = 1;

pub const LENGTH_MAX: u64 = 14_400_000;

pub const RATE_MIN: u64 = 1;

pub const RATE_MAX: u64 = 1_000;

pub const EVENT_TIME_MAX: u64 = 1_099_511_627_776;

pub const ASKED_MAX: u64 = 2_199_023_255_552;

// A lane for each of the largest count, from 0 on.
pub const LANE_MAX: u64 = COUNT_MAX - 1;
// A row with a place for each count from 0 to the largest, and one with a place for each lane.
pub const COUNT_PLACES: usize = COUNT_MAX as usize + 1;

pub const LANE_PLACES: usize = LANE_MAX as usize + 1;
// The cells of a film with the largest cap, each with a place in a box's plan.
pub const PLAN_PLACES: usize = 1 << COUNT_MAX;
// 01, "Sharing": at most this many titles, as many as there are ids.
pub const TITLES_MAX: usize = 16;

// 01, "Numbers that calls give back".
pub const DONE: u8 = 0;

pub const OUTSIDE_LIMITS: u8 = 1;

pub const TOO_EARLY: u8 = 2;

pub const NOT_THERE: u8 = 3;

pub const ID_TAKEN: u8 = 4;

pub const IS_CLOSING: u8 = 5;

pub const UNCHANGED: u8 = 6;

pub const SECOND_EVENT: u8 = 7;

pub const NOT_AT_SLOT: u8 = 8;

pub const NO_LANES: u8 = 9;

pub const WRONG_ROWS: u8 = 10;

pub const MALFORMED: u8 = 11;

pub const OUT_OF_TURN: u8 = 12;

pub const BELOW_FLOOR: u8 = 13;

pub const ABOVE_CAP: u8 = 14;

pub const FLOOR_ABOVE_CAP: u8 = 15;

pub const TOO_SOON: u8 = 16;

pub const DOORS_UNCHANGED: u8 = 17;

// An event would fall after the clock's last time.
pub const PAST_CLOCK: u8 = 18;

// A skip-forward title is not changed, held or lifted.
pub const IS_STEADY: u8 = 19;

// Whether x lies from lo to hi, both ends allowed.
pub fn within(lo: u64, hi: u64, x: u64) -> bool
    ensures { result ≡ inside lo hi x }
{
    lo <= x && x <= hi
}
