// Which lanes are held, counted in place (01, "Events" and "Status").

ghost use Rattle.std.specs.Prelude.{ℕ, ◌+◌, ◌*◌, ◌≤◌, ◌<◌, ◌≡◌, true, eqb, length, get_or};
ghost use Rattle.rules.specs.Limits.{count_max, titles_max};
ghost use Rattle.rules.specs.Refusals.{pick};
ghost use Rattle.rules.specs.Search.{how_many};
ghost use Rattle.grid.specs.Bounds.{Exactly};
ghost use Rattle.story.specs.Kept.{ruling as rulingOf, title_at, title_ok, state_ok, tick_at, kept_held, title_held, lanes_held};
ghost use Rattle.measures.specs.Readable.{Filmed};
ghost use Rattle.agent_rows.specs.Layout.{row_length, drops_at, owed_at, title_places};
ghost use Rattle.agent_rows.specs.Packed.{title_from, unpacked};
ghost use Rattle.agent_rows.specs.Others.{others_held};

use crate::reading::title_place;
use crate::{
    CAP_AT, COUNT_AT, DROPPED_AT, FLOOR_AT, KIND_AT, LENGTH_AT, MODE_AT, OPENED_AT, OWED_AT,
};
use rules::TITLES_MAX;
use story::{ABSENT, OPEN};

// The ruling count of the title at a place, 0 where it isn't open.
pub fn ruling(row: &[u64], at: usize) -> u64
    requires { at + title_places ≤ length row.now }
    ensures { result ≡ rulingOf (title_from row.now at) }
{
    let mode = row[at + MODE_AT];
    if mode == OPEN { row[at + COUNT_AT] } else { 0 }
}

// The tick of the title at a place that holds a time.
pub fn tick_at(row: &[u64], at: usize, time: u64) -> u64
    requires title_places_in_bounds { at + title_places ≤ length row.now }
    requires filmed { Filmed (title_from row.now at).film }
    ensures { Exactly (tick_at (title_from row.now at) time) 0 time result }
{
    let kind = row[at + KIND_AT];
    let length = row[at + LENGTH_AT];
    let floor = row[at + FLOOR_AT];
    let cap = row[at + CAP_AT];
    time.saturating_sub(row[at + OPENED_AT]) / scheme::tick(kind, length, floor, cap)
}

// Of the title at a place, when the lanes from one on were dropped and how many cells they owed then, or-ed: 0 where none ever was.
fn drops_from(row: &[u64], at: usize, from: u64) -> u64
    requires title_places_in_bounds { at + title_places ≤ length row.now }
    requires at_bound { (title_from row.now at).film.cap ≤ count_max }
    ensures { (l : ℕ) → from ≤ l → l < (title_from row.now at).film.cap
        → (get_or row.now (at + drops_at + l) 0 ≤ result) × (get_or row.now (at + owed_at + l) 0 ≤ result) }
{
    let cap = row[at + CAP_AT];
    let mut all = 0;
    for lane in from..cap {
        all |= row[at + DROPPED_AT + lane as usize] | row[at + OWED_AT + lane as usize];
    }
    all
}

// A lane of the title at a place, above its ruling count, still sends at a tick.
pub fn is_sending(row: &[u64], at: usize, lane: u64, tick: u64) -> bool
    requires title_places_in_bounds { at + title_places ≤ length row.now }
    requires at_value { (title_ok (title_from row.now at) ≡ true)
        × ((rulingOf (title_from row.now at) ≤ lane) × (lane < (title_from row.now at).film.cap)) }
    ensures { result ≡ kept_held (title_from row.now at) lane tick }
{
    tick < row[at + DROPPED_AT + lane as usize] + row[at + OWED_AT + lane as usize]
}

// How many lanes the title at a place holds at a tick: the active ones, and of those above them the ones that still send.
fn held_at(row: &[u64], at: usize, active: u64, tick: u64) -> u64
    requires title_places_in_bounds { at + title_places ≤ length row.now }
    requires at_value { (title_ok (title_from row.now at) ≡ true)
        × ((active ≡ rulingOf (title_from row.now at)) × (active ≤ (title_from row.now at).film.cap)) }
    ensures { Exactly (how_many (λ l. kept_held (title_from row.now at) l tick) (title_from row.now at).film.cap)
        0 count_max result }
{
    let cap = row[at + CAP_AT];
    let mut n = active;
    for lane in active..cap {
        n += u64::from(is_sending(row, at, lane, tick));
    }
    n
}

// How many lanes the title at a place holds at a time. Where no lane above its count was ever dropped, the tick is not asked for.
pub fn title_held(row: &[u64], at: usize, time: u64) -> u64
    requires title_places_in_bounds { at + title_places ≤ length row.now }
    requires at_value { title_ok (title_from row.now at) ≡ true }
    ensures { Exactly (title_held (title_from row.now at) time) 0 count_max result }
{
    let mode = row[at + MODE_AT];
    if mode == ABSENT {
        return 0;
    }
    let active = ruling(row, at);
    if drops_from(row, at, active) == 0 {
        return active;
    }
    held_at(row, at, active, tick_at(row, at, time))
}

// The lanes of an id, none where it is left out.
fn held_unless(row: &[u64], id: u64, but: u64, time: u64) -> u64
    requires row_len { (length row.now ≡ row_length) × (id < titles_max) }
    requires row_value { state_ok (unpacked row.now).state ≡ true }
    ensures { Exactly (pick (eqb id but) 0 (title_held (title_at (unpacked row.now).state id) time)) 0 count_max result }
{
    if id == but {
        return 0;
    }
    title_held(row, title_place(id), time)
}

// How many lanes are held at a time over all titles but one.
pub fn others_held(row: &[u64], but: u64, time: u64) -> u64
    requires row_len { length row.now ≡ row_length }
    requires row_value { state_ok (unpacked row.now).state ≡ true }
    ensures { Exactly (others_held (unpacked row.now).state but time) 0 (count_max * titles_max) result }
{
    let mut n = 0;
    for id in 0..TITLES_MAX as u64 {
        n += held_unless(row, id, but, time);
    }
    n
}

// How many lanes are held at a time over all titles.
pub fn lanes_held(row: &[u64], time: u64) -> u64
    requires row_len { length row.now ≡ row_length }
    requires row_value { state_ok (unpacked row.now).state ≡ true }
    ensures { result ≡ lanes_held (unpacked row.now).state time }
{
    others_held(row, TITLES_MAX as u64, time)
}
