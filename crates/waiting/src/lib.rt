// How long people waited (02, request 1): for the latest opening of one title in a log of notices, how many arrivals got in, the
// longest wait and the exact sum of waits. No public function has a `requires`: any pool, bytes, title and row have an answer.
#![tactic(auto)]

pub mod reasons;

ghost use Rattle.std.specs.Prelude.{◌≤◌, ◌≡◌, true, length};
ghost use Rattle.rules.specs.Limits.{within as is_within, pool_min, pool_max, event_time_max, id_max};
ghost use Rattle.notice.specs.Decode.{read_at};
ghost use Rattle.agent_rows.specs.Layout.{row_length};
ghost use Rattle.agent_rows.specs.Packed.{unpacked};
ghost use Rattle.row_calls.specs.inner.Steps.{Tested};
ghost use Rattle.admissions.specs.Waits.{row_max};
ghost use Rattle.admissions.specs.Stretches.{Playing, Few, fresh_tally};
ghost use Rattle.logs.specs.Reading.{PlayedStep, Plays};
ghost use Rattle.waiting.specs.inner.Steps.{event_tally, heard_tally, ReadyToTally, row_answer};
ghost use Rattle.waiting.specs.Report.{row_in_limits, refused_report, Reports};

use admissions::{Tally, Waits, ended, endless, opened};
use agent_rows::ROW_LENGTH;
use agent_rows::reading::title_at;
use logs::{PlayedLog, not_begun, read_for};
use rules::{
    ASKED_MAX, DONE, ID_MAX, MALFORMED, OUTSIDE_LIMITS, POOL_MAX, POOL_MIN, WRONG_ROWS, within,
};
use story::{OPEN, Title};

// The most arrivals of a row.
pub const ROW_MAX: usize = 4_096;

// The report. Beside a refusal the other numbers are 0.
#[derive(Clone, Copy)]
pub struct Report {
    pub answer: u8,
    pub arrivals: u64,
    pub waits: Waits,
}

// A log as far as it was played, and the tally of the title.
#[derive(Clone, Copy)]
struct Counted {
    played: PlayedLog,
    tally: Tally,
}

// An accepted event of the title, which was t before it: of an open title it ends a stretch, any other is an opening.
fn count_event(t: Title, time: u64, arrivals: &[u64], tally: Tally) -> Tally
    requires playing { t.mode ≡ 1 → Playing t }
    requires time_le_event_time_max { time ≤ event_time_max }
    requires few { Few (length arrivals.now) tally.waits }
    ensures { result ≡ event_tally arrivals.now t time tally }
{
    let mode = t.mode;
    if mode == OPEN {
        return ended(t, time, arrivals, tally);
    }
    opened(time)
}

// One read more of the log.
fn step(row: &mut [u64], counted: Counted, log: &[u8], title: u64, arrivals: &[u64]) -> Counted
    requires tested { Tested row.old }
    requires ready_to_tally { ReadyToTally (unpacked row.old) title arrivals.now counted.tally }
    ensures { PlayedStep (heard_tally title arrivals.now) row.old counted.played.place counted.tally
        (read_at log.now counted.played.place) row.new result.played result.tally }
{
    let tally = counted.tally;
    let read = read_for(row, counted.played.place, log, title);
    let next = read.played;
    let before = read.before;
    if read.own {
        return Counted {
            played: next,
            tally: count_event(before, read.time, arrivals, tally),
        };
    }
    Counted {
        played: next,
        tally,
    }
}

// A log, played into a fresh agent in a row up to where its reading stops.
fn play(row: &mut [u64], pool: u64, log: &[u8], title: u64, arrivals: &[u64]) -> Counted
    requires row_len { length row.old ≡ row_length }
    requires pool_value { is_within pool_min pool_max pool ≡ true }
    requires title_le_id_max { title ≤ id_max }
    requires arrivals_len_bound { length arrivals.now ≤ row_max }
    ensures { Plays (heard_tally title arrivals.now) pool log.now (fresh_tally 0)
        row.new result.played result.tally }
{
    let mut counted = Counted {
        played: not_begun(row, pool),
        tally: opened(0),
    };
    while counted.played.more {
        counted = step(row, counted, log, title, arrivals);
    }
    counted
}

// Whether every arrival of a row is a moment that can be asked about.
fn row_ok(arrivals: &[u64]) -> bool
    ensures { result ≡ row_in_limits arrivals.now }
{
    arrivals.iter().all(|arrival| *arrival <= ASKED_MAX)
}

// The refusals that do not hang on the log, in their order.
fn refusal(pool: u64, title: u64, arrivals: &[u64]) -> u8
    ensures { result ≡ row_answer pool title arrivals.now }
{
    if within(POOL_MIN, POOL_MAX, pool) && title <= ID_MAX && row_ok(arrivals) {
        if arrivals.len() > ROW_MAX {
            WRONG_ROWS
        } else {
            DONE
        }
    } else {
        OUTSIDE_LIMITS
    }
}

// A refusal, beside which the other numbers are 0.
fn refused(answer: u8) -> Report
    ensures { result ≡ refused_report answer }
{
    let waits = Waits {
        admitted: 0,
        longest: 0,
        sum: 0,
    };
    Report {
        answer,
        arrivals: 0,
        waits,
    }
}

// The waits for the latest opening of a title in a log that is played into a fresh agent of a pool, over a row of arrivals in
// ms. Refusals, in this order: 1 for a pool, a title or an arrival outside its limits, 10 for a row that is too long, 11 for a log
// with a malformed or cut notice in it.
pub fn report_of(pool: u64, log: &[u8], title: u64, arrivals: &[u64]) -> Report
    ensures { Reports pool log.now title arrivals.now result }
{
    let answer = refusal(pool, title, arrivals);
    if answer != DONE {
        return refused(answer);
    }
    let mut row = [0; ROW_LENGTH];
    let counted = play(&mut row, pool, log, title, arrivals);
    let played = counted.played;
    if played.place < log.len() {
        return refused(MALFORMED);
    }
    let tally = counted.tally;
    let t = title_at(&row, title);
    let waits = endless(t, arrivals, tally);
    Report {
        answer: DONE,
        arrivals: arrivals.len() as u64,
        waits,
    }
}
