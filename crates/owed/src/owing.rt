// Which ticks a dropped lane owes, over the boxes of every count (01, "Events").

ghost use Rattle.std.specs.Prelude.{◌+◌, ◌^◌, ◌≤◌, ◌<◌, ◌≡◌, true, leb, ltb};
ghost use Rattle.rules.specs.Limits.{both, asked_max, count_max};
ghost use Rattle.grid.specs.Lanes.{is_in_g, lane_cell};
ghost use Rattle.grid.specs.Bounds.{Exactly, CountCap, IsCell, tick_max};
ghost use Rattle.scheme.specs.Scheme.{padded, steady_kind, period as periodOf};
ghost use Rattle.story.specs.Life.{reach as reachOf};
ghost use Rattle.story.specs.Kept.{scheme_in, wants, kept_awaited, kept_owed, kept_within};
ghost use Rattle.measures.specs.Readable.{Owing};

use crate::sending::reach;
use grid::{carrier, pow2, slot};
use scheme::{STEADY, holds_film, lane_cell, period};
use story::Title;
use stretches::latest::latest_above;
use stretches::low::{is_idle, owed_low};
use stretches::turns::turns_at;
use stretches::upper::{is_reached, owed_in, walk_of};

// A cell that goes out at a tick is owed to the latest boxes of a count, whose slot ended at tick `end`, while they
// take the channel that carries it. A count below the floor has no boxes, and neither has one that never ruled.
fn owed_to(floor: u64, cap: u64, count: u64, end: u64, cell: u64, tick: u64) -> bool
    requires count_cap { CountCap count cap }
    requires end_le_asked_max { (end ≤ asked_max) × ((cell < 2 ^ cap) × (tick ≤ tick_max)) }
    requires cell_value { floor ≤ count → is_in_g floor cap count tick cell ≡ true }
    ensures { result ≡ both (leb floor count) (wants (padded floor cap) end cell tick count) }
{
    if count < floor {
        return false;
    }
    if end == 0 {
        return false;
    }
    let width = slot(cap, count);
    let channel = carrier(cap, count, cell);
    tick + width < end + width * pow2(channel)
}

// Of a title on the padded grid: the boxes of some count that had the lane still await the lane's cell at a tick. Every such
// count has that cell on a channel then, so that no other cell is asked for.
fn awaited_by_some(t: Title, lane: u64, cell: u64, tick: u64) -> bool
    requires owing { Owing t }
    requires lane_lt_cap { (lane < t.film.cap) × (tick ≤ tick_max) }
    requires cell { (IsCell t.film.cap (lane_cell t.film.floor t.film.cap lane tick) cell) × (t.film.kind ≡ steady_kind → ⊥) }
    ensures { result ≡ kept_awaited t lane cell tick }
{
    let cap = t.film.cap;
    let floor = t.film.floor;
    for count in lane + 1..cap + 1 {
        // the numbers alone are handed on: a title handed on is copied
        let end = t.ends[count as usize];
        if owed_to(floor, cap, count, end, cell, tick) {
            return true;
        }
    }
    false
}

// Of a skip-forward title, whose latest boxes began a tick before `end`: they take each lane for one period.
fn awaited_on(lane: u64, end: u64, tick: u64) -> bool
    requires { (lane ≤ count_max) × ((end ≤ asked_max) × (tick ≤ tick_max)) }
    ensures { result ≡ both (ltb 0 end) (ltb (tick + 1) (end + periodOf lane)) }
{
    0 < end && tick + 1 < end + period(lane)
}

// The lane's cell is still awaited at a tick. The boxes of a skip-forward title all began under its one count.
pub fn is_awaited(t: Title, lane: u64, cell: u64, tick: u64) -> bool
    requires owing { Owing t }
    requires lane_lt_cap { (lane < t.film.cap) × (tick ≤ tick_max) }
    requires cell { IsCell t.film.cap ((scheme_in t).on_lane lane tick) cell }
    ensures { result ≡ kept_awaited t lane cell tick }
{
    if t.film.kind == STEADY {
        let count = t.film.cap;
        let end = t.ends[count as usize];
        return awaited_on(lane, end, tick);
    }
    awaited_by_some(t, lane, cell, tick)
}

// Of a dropped lane a tick is owed: its cell is no padding, and is still awaited.
pub fn is_owed(t: Title, lane: u64, tick: u64) -> bool
    requires owing { Owing t }
    requires lane_lt_cap { (lane < t.film.cap) × (tick ≤ tick_max) }
    ensures { result ≡ kept_owed t lane tick }
{
    let cell = lane_cell(t.film.kind, t.film.floor, t.film.cap, lane, tick);
    holds_film(t.film.kind, t.film.length, t.film.floor, t.film.cap, cell)
        && is_awaited(t, lane, cell, tick)
}

// How many of the n ticks from a tick on a lane owes, tick by tick.
pub fn owed_within(t: Title, lane: u64, from: u64, n: u64) -> u64
    requires owing { Owing t }
    requires lane_lt_cap { (lane < t.film.cap) × (from + n ≤ tick_max) }
    ensures { Exactly (kept_within t lane from n) 0 n result }
{
    let mut owed = 0;
    for i in 0..n {
        owed += u64::from(is_owed(t, lane, from + i));
    }
    owed
}

// How many ticks lane 0 owes that is dropped at a tick: nothing, and tick by tick where no events lead.
fn owes_first(t: Title, at: u64) -> u64
    requires owing { Owing t }
    requires at_le_asked_max { (at ≤ asked_max) × (t.film.kind ≡ steady_kind → ⊥) }
    ensures { result ≡ kept_within t 0 at (reachOf t.film.cap) }
{
    let film = t.film;
    if is_idle(&t.ends, film, at) {
        return 0;
    }
    owed_within(t, 0, at, reach(t))
}

// Of a lane of a skip-forward title: by its turns, and tick by tick where no events lead.
fn owes_steady(t: Title, lane: u64, at: u64) -> u64
    requires owing { Owing t }
    requires lane_lt_cap { (lane < t.film.cap) × (at ≤ asked_max) }
    requires kind_value { t.film.kind ≡ steady_kind }
    ensures { result ≡ kept_within t lane at (reachOf t.film.cap) }
{
    let film = t.film;
    let count = film.cap;
    let ended = t.ends[count as usize];
    if at < ended {
        return owed_within(t, lane, at, reach(t));
    }
    let turns = turns_at(film, ended, lane, at);
    turns.first + turns.second
}

// Of a lane that has no stretches by channels.
fn owes_else(t: Title, lane: u64, at: u64) -> u64
    requires owing { Owing t }
    requires lane_lt_cap { (lane < t.film.cap) × (at ≤ asked_max) }
    ensures { result ≡ kept_within t lane at (reachOf t.film.cap) }
{
    if t.film.kind == STEADY {
        return owes_steady(t, lane, at);
    }
    if t.film.floor <= lane {
        return owed_within(t, lane, at, reach(t));
    }
    if lane == 0 {
        return owes_first(t, at);
    }
    owed_low(t, lane, at)
}

// Of any lane: one from the floor up by its channels, where events drop it. A title is handed on, and so copied, for the others alone.
pub fn owes(t: Title, lane: u64, at: u64) -> u64
    requires owing { Owing t }
    requires lane_lt_cap { (lane < t.film.cap) × (at ≤ asked_max) }
    ensures { result ≡ kept_within t lane at (reachOf t.film.cap) }
{
    let film = t.film;
    let latest = latest_above(&t.ends, film.cap, lane);
    if is_reached(film, lane, at, latest.end) {
        return owed_in(walk_of(film, lane, at, latest.until));
    }
    owes_else(t, lane, at)
}
