// What happens to titles, and what the scheduler keeps of it, number by number. What the numbers mean is defined in specs/, and that they tell the story of
// the accepted events is proved in proofs/. The calls stand in the crate above.
#![tactic(auto)]

use rules::{COUNT_PLACES, LANE_PLACES, TITLES_MAX};

// Whether a slot has a title: none, one that is open, one that is closing.
pub const ABSENT: u64 = 0;

pub const OPEN: u64 = 1;

pub const CLOSING: u64 = 2;

// The held mark of a title: its doors are not held, or they are.
pub const CLEAR: u64 = 0;

pub const HELD: u64 = 1;

// What is sent as a title: the scheme that it is sent by, its length in ms, and the counts that it may have, from its floor
// to its cap.
#[derive(Clone, Copy)]
pub struct Film {
    pub kind: u64,
    pub length: u64,
    pub floor: u64,
    pub cap: u64,
}

// What an event does to its title: opens it as a film with a count, changes the count, closes it, holds or lifts its doors.
#[derive(Clone, Copy)]
pub enum Act {
    Opens { film: Film, count: u64 },
    Changes { count: u64 },
    Closes,
    Doors { held: bool },
}

// An event: the title's id, its time in ms, and what it does.
#[derive(Clone, Copy)]
pub struct Event {
    pub title: u64,
    pub time: u64,
    pub act: Act,
}

// One title. A tick is counted from the opening; a row of counts has a place for each count up to the largest, a row of
// lanes one for each lane.
#[derive(Clone, Copy)]
pub struct Title {
    pub mode: u64,
    pub film: Film,
    pub opened: u64,
    pub count: u64,
    // whether its doors are held
    pub mark: u64,
    // the time of its latest accepted event, and that of its latest opening or change
    pub last: u64,
    pub tuned: u64,
    // for each count, the end of the slot of its latest admission, 0 where it never admitted a box
    pub ends: [u64; COUNT_PLACES],
    // for each lane, the tick at which it was last dropped, and how many cells it owed then
    pub dropped: [u64; LANE_PLACES],
    pub owed: [u64; LANE_PLACES],
}

// The pool: its lanes, the time of the last accepted event, and a slot for each id.
#[derive(Clone, Copy)]
pub struct State {
    pub pool: u64,
    pub last: u64,
    pub titles: [Title; TITLES_MAX],
}
