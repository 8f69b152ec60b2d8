// Whether every number of a row is within its limits (01, "Numbers that calls give back"), in one pass: the limit of times, ticks and
// owed cells is looked at once, on all numbers or-ed, and number by number only where some number may be above it.

ghost use Rattle.std.specs.Prelude.{ℕ, ◌+◌, ◌≤◌, ◌<◌, ◌≡◌, leb, length, get_or, take, drop};
ghost use Rattle.rules.specs.Limits.{both, pool_max, asked_max, titles_max};
ghost use Rattle.rules.specs.Search.{every};
ghost use Rattle.story.specs.Kept.{row_ok, state_ok};
ghost use Rattle.agent_rows.specs.Layout.{pool_at, last_at, row_length, title_places, title_place};
ghost use Rattle.agent_rows.specs.Packed.{title_from, unpacked, row_sound};
ghost use Rattle.agent_rows.specs.inner.Tested.{small_numbers, ordered_numbers, small_ok, times_ok};

use crate::{
    CAP_AT, COUNT_AT, DROPPED_AT, ENDS_AT, FLOOR_AT, KIND_AT, LAST_AT, LENGTH_AT, MARK_AT, MODE_AT,
    OPENED_AT, OWED_AT, POOL_AT, ROW_VERSION, SEQUENCE_AT, SEQUENCE_END, TITLE_LAST_AT,
    TITLE_PLACES, TITLES_AT, TUNED_AT, VERSION_AT,
};
use limits::{floor_ok, is_level};
use rules::truth::row_within;
use rules::{
    ASKED_MAX, COUNT_MAX, COUNT_PLACES, FLOOR_MIN, LANE_PLACES, LENGTH_MAX, LENGTH_MIN, POOL_MAX,
    POOL_MIN, TITLES_MAX, within,
};
use scheme::STEADY;
use story::{ABSENT, CLOSING, HELD};

// The upper limits of a title's small numbers.
fn numbers_ok(
    mode: u64,
    kind: u64,
    length: u64,
    floor: u64,
    cap: u64,
    count: u64,
    mark: u64,
) -> bool
    ensures { result ≡ small_numbers mode kind length floor cap count mark }
{
    mode <= CLOSING
        && kind <= STEADY
        && length <= LENGTH_MAX
        && cap <= COUNT_MAX
        && count <= COUNT_MAX
        && mark <= HELD
        && floor_ok(kind, floor)
}

// The lower limits and the order of those of a title that is there.
fn order_ok(kind: u64, length: u64, floor: u64, cap: u64, count: u64) -> bool
    ensures { result ≡ ordered_numbers kind length floor cap count }
{
    LENGTH_MIN <= length
        && FLOOR_MIN <= floor
        && floor <= cap
        && within(floor, cap, count)
        && is_level(kind, floor, cap)
}

// The small numbers of the title at a place, in a row with some pool.
fn small_ok(row: &[u64], at: usize, pool: u64) -> bool
    requires { at + title_places ≤ length row.now }
    ensures { result ≡ small_ok pool (title_from row.now at) }
{
    let mode = row[at + MODE_AT];
    let kind = row[at + KIND_AT];
    let length = row[at + LENGTH_AT];
    let floor = row[at + FLOOR_AT];
    let cap = row[at + CAP_AT];
    let count = row[at + COUNT_AT];
    if !numbers_ok(mode, kind, length, floor, cap, count, row[at + MARK_AT]) {
        return false;
    }
    if mode == ABSENT {
        return true;
    }
    POOL_MIN <= pool && order_ok(kind, length, floor, cap, count)
}

// The numbers of the title at a place or-ed: none is above that.
fn all_of(row: &[u64], at: usize) -> u64
    requires { at + title_places ≤ length row.now }
    ensures { (j : ℕ) → j < title_places → get_or row.now (at + j) 0 ≤ result }
{
    let mut all = 0;
    for number in &row[at..at + TITLE_PLACES] {
        all |= *number;
    }
    all
}

// A part of the row within the limit, number by number.
fn part_ok(row: &[u64], from: usize, n: usize) -> bool
    requires { from + n ≤ length row.now }
    ensures { result ≡ row_ok (take n (drop from row.now)) n }
{
    row_within(&row[from..from + n], n, ASKED_MAX)
}

// The times and the rows of the title at a place.
fn title_times_ok(row: &[u64], at: usize) -> bool
    requires { at + title_places ≤ length row.now }
    ensures { result ≡ times_ok (title_from row.now at) }
{
    row[at + OPENED_AT] <= ASKED_MAX
        && row[at + TITLE_LAST_AT] <= ASKED_MAX
        && row[at + TUNED_AT] <= ASKED_MAX
        && part_ok(row, at + ENDS_AT, COUNT_PLACES)
        && part_ok(row, at + DROPPED_AT, LANE_PLACES)
        && part_ok(row, at + OWED_AT, LANE_PLACES)
}

// Those of every title.
fn each_times_ok(row: &[u64]) -> bool
    requires { length row.now ≡ row_length }
    ensures { result ≡ every (λ i. times_ok (title_from row.now (title_place i))) titles_max }
{
    for i in 0..TITLES_MAX {
        if !title_times_ok(row, TITLES_AT + i * TITLE_PLACES) {
            return false;
        }
    }
    true
}

// The titles of a row with some pool, in one pass; their times one by one only where some number is above the limit.
fn titles_ok(row: &[u64], pool: u64) -> bool
    requires { length row.now ≡ row_length }
    ensures { result ≡ both (every (λ i. small_ok pool (title_from row.now (title_place i))) titles_max)
        (every (λ i. times_ok (title_from row.now (title_place i))) titles_max) }
{
    let mut ok = true;
    let mut all = 0;
    for i in 0..TITLES_MAX {
        let at = TITLES_AT + i * TITLE_PLACES;
        ok = small_ok(row, at, pool) && ok;
        all |= all_of(row, at);
    }
    ok && (all <= ASKED_MAX || each_times_ok(row))
}

// The version, the sequence, the pool and the time of the last event.
fn head_ok(row: &[u64]) -> bool
    requires { length row.now ≡ row_length }
    ensures { result ≡ both (row_sound row.now)
        (both (leb (get_or row.now pool_at 0) pool_max) (leb (get_or row.now last_at 0) asked_max)) }
{
    row[VERSION_AT] == ROW_VERSION
        && row[SEQUENCE_AT] < SEQUENCE_END
        && row[POOL_AT] <= POOL_MAX
        && row[LAST_AT] <= ASKED_MAX
}

// Whether a row is sound and every number of its state within its limits.
pub fn row_ok(row: &[u64]) -> bool
    requires { length row.now ≡ row_length }
    ensures { result ≡ both (row_sound row.now) (state_ok (unpacked row.now).state) }
{
    head_ok(row) && titles_ok(row, row[POOL_AT])
}
