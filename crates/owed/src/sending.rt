// What a lane shows: its usual cell while it is active, else its owed cells in the order of their ticks (01, "Events").

ghost use Rattle.std.specs.Prelude.{◌+◌, ◌-◌, ◌^◌, ◌≤◌, ◌<◌, ◌≡◌};
ghost use Rattle.rules.specs.Limits.{asked_max, count_max};
ghost use Rattle.rules.specs.Search.{first};
ghost use Rattle.grid.specs.Bounds.{Exactly, tick_max};
ghost use Rattle.scheme.specs.Scheme.{steady_kind};
ghost use Rattle.story.specs.Life.{reach as reachOf};
ghost use Rattle.story.specs.Kept.{kept_nth, sending_tick, shows as showsOf};
ghost use Rattle.measures.specs.Readable.{Owing, Sending};
ghost use Rattle.owed.specs.Shown.{shown_tick};

use crate::owing::is_owed;
use grid::pow2;
use measures::lanes::ruling;
use scheme::{STEADY, lane_cell};
use story::Title;
use stretches::latest::latest_above;
use stretches::low::nth_low;
use stretches::turns::turns_at;
use stretches::upper::{is_reached, nth_in, walk_of};

// How far from its drop the last tick lies that a lane may owe.
pub fn reach(t: Title) -> u64
    requires { Owing t }
    ensures { Exactly (reachOf t.film.cap) 1 (2 ^ count_max) result }
{
    pow2(t.film.cap - 1)
}

// How far from a tick lies the owed tick that has `nth` owed ticks before it; the reach where there is none. Tick by
// tick.
fn nth_by_ticks(t: Title, lane: u64, from: u64, nth: u64) -> u64
    requires owing { Owing t }
    requires lane_lt_cap { (lane < t.film.cap) × (from ≤ asked_max) }
    ensures { Exactly (first (kept_nth t lane from nth) (reachOf t.film.cap)) 0 (2 ^ count_max) result }
{
    let end = reach(t);
    let mut owed = 0;
    for i in 0..end {
        if is_owed(t, lane, from + i) {
            if owed == nth {
                return i;
            }
            owed += 1;
        }
    }
    end
}

// The same of a lane from the floor up: by its channels, and tick by tick where no events lead.
fn nth_up(t: Title, lane: u64, from: u64, nth: u64) -> u64
    requires owing { Owing t }
    requires lane_lt_cap { (lane < t.film.cap) × (from ≤ asked_max) }
    ensures { Exactly (first (kept_nth t lane from nth) (reachOf t.film.cap)) 0 (2 ^ count_max) result }
{
    let film = t.film;
    let latest = latest_above(&t.ends, film.cap, lane);
    if is_reached(film, lane, from, latest.end) {
        return nth_in(walk_of(film, lane, from, latest.until), nth);
    }
    nth_by_ticks(t, lane, from, nth)
}

// The same of a lane of a skip-forward title: by its turns, and tick by tick where no events lead.
fn nth_steady(t: Title, lane: u64, from: u64, nth: u64) -> u64
    requires owing { Owing t }
    requires lane_lt_cap { (lane < t.film.cap) × (from ≤ asked_max) }
    requires kind_value { t.film.kind ≡ steady_kind }
    ensures { Exactly (first (kept_nth t lane from nth) (reachOf t.film.cap)) 0 (2 ^ count_max) result }
{
    let film = t.film;
    let count = film.cap;
    let ended = t.ends[count as usize];
    if from < ended {
        return nth_by_ticks(t, lane, from, nth);
    }
    let turns = turns_at(film, ended, lane, from);
    if nth < turns.first {
        return nth;
    }
    if nth < turns.first + turns.second {
        return turns.left + (nth - turns.first);
    }
    reach(t)
}

// The same of any lane: by stretches where it has them. Of lane 0 events leave nothing to find.
fn nth_owed(t: Title, lane: u64, from: u64, nth: u64) -> u64
    requires owing { Owing t }
    requires lane_lt_cap { (lane < t.film.cap) × (from ≤ asked_max) }
    ensures { Exactly (first (kept_nth t lane from nth) (reachOf t.film.cap)) 0 (2 ^ count_max) result }
{
    if t.film.kind == STEADY {
        return nth_steady(t, lane, from, nth);
    }
    if t.film.floor <= lane {
        return nth_up(t, lane, from, nth);
    }
    if lane == 0 {
        return nth_by_ticks(t, lane, from, nth);
    }
    nth_low(t, lane, from, nth)
}

// The tick whose cell a sending lane shows at a tick.
pub fn sending_tick(t: Title, lane: u64, tick: u64) -> u64
    requires sending { Sending t }
    requires lane_lt_cap { lane < t.film.cap }
    ensures { Exactly (sending_tick t lane tick) 0 tick_max result }
{
    let from = t.dropped[lane as usize];
    from + nth_owed(t, lane, from, tick.saturating_sub(from))
}

// The tick whose cell a held lane shows at a tick: on an active lane that tick.
pub fn shown_tick(t: Title, lane: u64, tick: u64) -> u64
    requires sending { Sending t }
    requires lane_lt_cap { (lane < t.film.cap) × (tick ≤ tick_max) }
    ensures { Exactly (shown_tick t lane tick) 0 tick_max result }
{
    if lane < ruling(t) {
        return tick;
    }
    sending_tick(t, lane, tick)
}

// The cell that a held lane shows at a tick.
pub fn shows(t: Title, lane: u64, tick: u64) -> u64
    requires sending { Sending t }
    requires lane_lt_cap { (lane < t.film.cap) × (tick ≤ tick_max) }
    ensures { result ≡ showsOf t lane tick }
{
    lane_cell(
        t.film.kind,
        t.film.floor,
        t.film.cap,
        lane,
        shown_tick(t, lane, tick),
    )
}
