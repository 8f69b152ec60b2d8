// Which notices of a log did not count: they are told one after the other to a fresh agent of a pool, which refuses some. No
// public function has a `requires`: any pool and any bytes have an answer.
#![tactic(auto)]

ghost use Rattle.std.specs.Prelude.{◌≡◌, true, length};
ghost use Rattle.rules.specs.Limits.{within as is_within, pool_min, pool_max};
ghost use Rattle.notice.specs.Decode.{read_at};
ghost use Rattle.agent_rows.specs.Layout.{row_length};
ghost use Rattle.row_calls.specs.inner.Steps.{Tested};
ghost use Rattle.logs.specs.Reading.{PlayedStep, Plays};
ghost use Rattle.unheard.specs.Unheard.{none_told, refused_unheard, unheard_in};
ghost use Rattle.unheard.specs.inner.Steps.{counted as countedOf, heard_count, RoomToCount, Small};

use agent_rows::ROW_LENGTH;
use logs::{PlayedLog, not_begun, read_on};
use rules::{DONE, MALFORMED, OUTSIDE_LIMITS, POOL_MAX, POOL_MIN, within};

// How many notices were told, how many of them did not count, and of the first of those its number, from 1 on, and what it was
// answered; both are 0 where all count.
#[derive(Clone, Copy)]
pub struct MissedTally {
    pub notices: u64,
    pub missed: u64,
    pub first: u64,
    pub said: u8,
}

// What the call gives back. Beside a refusal the tally is of no notice.
#[derive(Clone, Copy)]
pub struct Unheard {
    pub answer: u8,
    pub tally: MissedTally,
}

// A log as far as it was played, and the tally of its notices.
#[derive(Clone, Copy)]
struct Counted {
    played: PlayedLog,
    tally: MissedTally,
}

// Before any notice.
fn none_told() -> MissedTally
    ensures { result ≡ none_told }
{
    MissedTally {
        notices: 0,
        missed: 0,
        first: 0,
        said: DONE,
    }
}

// One notice more, with what it was answered.
fn count(tally: MissedTally, answer: u8) -> MissedTally
    requires { RoomToCount tally }
    ensures { result ≡ countedOf tally answer }
{
    let number = tally.notices + 1;
    let missed = tally.missed;
    let mut next = tally;
    next.notices = number;
    if answer == DONE {
        return next;
    }
    next.missed = missed + 1;
    if missed == 0 {
        next.first = number;
        next.said = answer;
    }
    next
}

// One read more of the log: what a notice is answered is counted.
fn step(row: &mut [u64], counted: Counted, log: &[u8]) -> Counted
    requires tested { Tested row.old }
    requires small { Small counted.played.place counted.tally }
    ensures { PlayedStep heard_count row.old counted.played.place counted.tally
        (read_at log.now counted.played.place) row.new result.played result.tally }
{
    let tally = counted.tally;
    let read = read_on(row, counted.played.place, log);
    let next = read.played;
    if next.more {
        return Counted {
            played: next,
            tally: count(tally, read.answer),
        };
    }
    Counted {
        played: next,
        tally,
    }
}

// A log, played into a fresh agent in a row up to where its reading stops.
fn play(row: &mut [u64], pool: u64, log: &[u8]) -> Counted
    requires row_len { length row.old ≡ row_length }
    requires pool_value { is_within pool_min pool_max pool ≡ true }
    ensures { Plays heard_count pool log.now none_told row.new result.played result.tally }
{
    let mut counted = Counted {
        played: not_begun(row, pool),
        tally: none_told(),
    };
    while counted.played.more {
        counted = step(row, counted, log);
    }
    counted
}

fn refused(answer: u8) -> Unheard
    ensures { result ≡ refused_unheard answer }
{
    Unheard {
        answer,
        tally: none_told(),
    }
}

// Which notices of a log did not count, as a fresh agent of a pool takes them. Refusals, in this order: 1 for a pool outside its
// limits, 11 for a log with a malformed or cut notice in it.
pub fn unheard_in(pool: u64, log: &[u8]) -> Unheard
    ensures { result ≡ unheard_in pool log.now }
{
    if within(POOL_MIN, POOL_MAX, pool) {
        let mut row = [0; ROW_LENGTH];
        let counted = play(&mut row, pool, log);
        if counted.played.place < log.len() {
            return refused(MALFORMED);
        }
        return Unheard {
            answer: DONE,
            tally: counted.tally,
        };
    }
    refused(OUTSIDE_LIMITS)
}
