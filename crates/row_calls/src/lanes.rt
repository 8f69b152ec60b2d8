// What is asked of a lent row: the cell that goes out on a lane, and how many lanes are held.

ghost use Rattle.std.specs.Prelude.{◌+◌, ◌≤◌, ◌<◌, ◌≡◌, true, length};
ghost use Rattle.rules.specs.Limits.{asked_max};
ghost use Rattle.rules.specs.Refusals.{pick, done, not_there};
ghost use Rattle.grid.specs.Bounds.{tick_max};
ghost use Rattle.story.specs.Kept.{title_ok, scheme_in, kept_held};
ghost use Rattle.story.specs.Calls.{lane_answer};
ghost use Rattle.measures.specs.Readable.{Filmed};
ghost use Rattle.owed.specs.Shown.{shown_tick};
ghost use Rattle.scheduler.specs.Outcomes.{held_answer, held_shown};
ghost use Rattle.agent_rows.specs.Layout.{title_places};
ghost use Rattle.agent_rows.specs.Packed.{title_from, unpacked};
ghost use Rattle.row_calls.specs.Answers.{asked_tick, row_lane, row_tick, row_shows, row_held, row_lanes};
ghost use Rattle.row_calls.specs.inner.Steps.{Tested, Above, Early, lane_told, tick_told};

use agent_rows::holding::{is_sending, lanes_held, ruling, tick_at};
use agent_rows::reading::{title_from, title_place};
use agent_rows::testing::row_ok;
use agent_rows::{CAP_AT, FLOOR_AT, KIND_AT, LAST_AT, MODE_AT, ROW_LENGTH, TITLE_LAST_AT};
use owed::sending::sending_tick;
use rules::{ASKED_MAX, DONE, ID_MAX, LANE_MAX, NOT_THERE, OUTSIDE_LIMITS, TOO_EARLY, WRONG_ROWS};
use scheduler::{HeldLanes, Shown};
use scheme::lane_cell;
use story::ABSENT;

// What is found of a lane: the answer to its question, and the tick whose cell goes out on it, 0 beside a refusal.
#[derive(Clone, Copy)]
pub struct ShownTick {
    pub answer: u8,
    pub tick: u64,
}

// A refusal of a lane question.
fn refused(answer: u8) -> ShownTick
    ensures { (result.answer ≡ answer) × Early 0 result.tick }
{
    ShownTick {
        answer: answer,
        tick: 0,
    }
}

// A lane above the ruling count of the title at a place: the tick whose cell it owes, while it sends.
fn owed_tick(row: &[u64], at: usize, lane: u64, tick: u64) -> ShownTick
    requires title_places_in_bounds { at + title_places ≤ length row.now }
    requires above { Above (title_from row.now at) lane tick }
    ensures { (result.answer ≡ pick (kept_held (title_from row.now at) lane tick) done not_there)
        × Early (pick (kept_held (title_from row.now at) lane tick) (shown_tick (title_from row.now at) lane tick) 0) result.tick }
{
    if is_sending(row, at, lane, tick) {
        return ShownTick {
            answer: DONE,
            tick: sending_tick(title_from(row, at), lane, tick),
        };
    }
    refused(NOT_THERE)
}

// A lane of the title at a place: no copy of the title is made for an active one.
fn title_tick(row: &[u64], at: usize, lane: u64, time: u64) -> ShownTick
    requires title_places_in_bounds { at + title_places ≤ length row.now }
    requires at_value { (title_ok (title_from row.now at) ≡ true) × (time ≤ asked_max) }
    ensures { (result.answer ≡ lane_told (title_from row.now at) lane time)
        × Early (tick_told (title_from row.now at) lane time) result.tick }
{
    let last = row[at + TITLE_LAST_AT];
    if time < last {
        return refused(TOO_EARLY);
    }
    let mode = row[at + MODE_AT];
    if mode == ABSENT {
        return refused(NOT_THERE);
    }
    let cap = row[at + CAP_AT];
    if cap <= lane {
        return refused(NOT_THERE);
    }
    let tick = tick_at(row, at, time);
    if lane < ruling(row, at) {
        return ShownTick {
            answer: DONE,
            tick: tick,
        };
    }
    owed_tick(row, at, lane, tick)
}

// A lane question of a row that was tested.
fn asked_tick(row: &[u64], id: u64, lane: u64, time: u64) -> ShownTick
    requires { Tested row.now }
    ensures { (result.answer ≡ lane_answer (unpacked row.now).state id lane time)
        × Early (asked_tick (unpacked row.now).state id lane time) result.tick }
{
    if id <= ID_MAX && lane <= LANE_MAX && time <= ASKED_MAX {
        return title_tick(row, title_place(id), lane, time);
    }
    refused(OUTSIDE_LIMITS)
}

// The tick whose cell goes out on a lane of a title in the tick that holds a time: that tick, or the one whose turn it is.
pub fn shown_tick(row: &[u64], id: u64, lane: u64, time: u64) -> ShownTick
    ensures { (result.answer ≡ row_lane row.now id lane time) × Early (row_tick row.now id lane time) result.tick }
{
    if row.len() != ROW_LENGTH {
        return refused(WRONG_ROWS);
    }
    if row_ok(row) {
        return asked_tick(row, id, lane, time);
    }
    refused(OUTSIDE_LIMITS)
}

// The cell that a lane of the title at a place carries at a tick.
fn cell_of(row: &[u64], at: usize, lane: u64, tick: u64) -> u64
    requires title_places_in_bounds { at + title_places ≤ length row.now }
    requires filmed { Filmed (title_from row.now at).film }
    requires lane_bound { (lane < (title_from row.now at).film.cap) × (tick ≤ tick_max) }
    ensures { result ≡ (scheme_in (title_from row.now at)).on_lane lane tick }
{
    let kind = row[at + KIND_AT];
    let floor = row[at + FLOOR_AT];
    lane_cell(kind, floor, row[at + CAP_AT], lane, tick)
}

// Which cell goes out on a lane of a title in the tick that holds a time.
pub fn lane(row: &[u64], id: u64, lane: u64, time: u64) -> Shown
    ensures { (result.answer ≡ row_lane row.now id lane time) × (result.cell ≡ row_shows row.now id lane time) }
{
    let shown = shown_tick(row, id, lane, time);
    let answer = shown.answer;
    if answer == DONE {
        return Shown {
            answer: DONE,
            cell: cell_of(row, title_place(id), lane, shown.tick),
        };
    }
    Shown {
        answer: answer,
        cell: 0,
    }
}

// A refusal of the question of lanes held.
fn unheld(answer: u8) -> HeldLanes
    ensures { (result.answer ≡ answer) × (result.lanes ≡ 0) }
{
    HeldLanes {
        answer: answer,
        lanes: 0,
    }
}

// The lanes held of a row that was tested.
fn counted(row: &[u64], time: u64) -> HeldLanes
    requires { Tested row.now }
    ensures { (result.answer ≡ held_answer (unpacked row.now).state time)
        × (result.lanes ≡ held_shown (unpacked row.now).state time) }
{
    if time > ASKED_MAX {
        return unheld(OUTSIDE_LIMITS);
    }
    let last = row[LAST_AT];
    if time < last {
        return unheld(TOO_EARLY);
    }
    HeldLanes {
        answer: DONE,
        lanes: lanes_held(row, time),
    }
}

// How many lanes are held over all titles at a time, no earlier than the last accepted event.
pub fn held(row: &[u64], time: u64) -> HeldLanes
    ensures { (result.answer ≡ row_held row.now time) × (result.lanes ≡ row_lanes row.now time) }
{
    if row.len() != ROW_LENGTH {
        return unheld(WRONG_ROWS);
    }
    if row_ok(row) {
        return counted(row, time);
    }
    unheld(OUTSIDE_LIMITS)
}
