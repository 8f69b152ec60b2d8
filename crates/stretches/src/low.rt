// The stretches of a lane below the floor, which a close alone drops: each lies within a slot of the floor's count.

ghost use Rattle.std.specs.Prelude.{ℕ, suc, ◌+◌, ◌*◌, ◌-◌, ◌^◌, ◌≤◌, ◌<◌, min, ◌≡◌, true, leb};
ghost use Rattle.rules.specs.Limits.{asked_max, count_max, count_places};
ghost use Rattle.rules.specs.Refusals.{pick};
ghost use Rattle.rules.specs.Search.{first};
ghost use Rattle.grid.specs.Bounds.{Exactly, FloorCap, IsRest};
ghost use Rattle.scheme.specs.Scheme.{steady_kind};
ghost use Rattle.story.specs.Life.{reach as reachOf};
ghost use Rattle.story.specs.Kept.{row_ok, kept_within, kept_nth};
ghost use Rattle.measures.specs.Readable.{Owing};
ghost use Rattle.stretches.specs.inner.Low.{
  Lower,
  LowOf,
  IsTill,
  IsLength,
  place_at,
  left_at,
  cell_at,
  decisive,
  Idle,
};

use crate::latest::{latest_above, moved};
use crate::upper::film_cells;
use grid::{pow2, slot};
use rules::COUNT_PLACES;
use story::{Film, Title};

// A lane of a film below its floor: the ticks of a slot of the floor's count, and the segments that the lane repeats.
#[derive(Clone, Copy)]
pub struct Low {
    pub floor: u64,
    pub cap: u64,
    pub lane: u64,
    pub width: u64,
    pub own: u64,
}

// The numbers of a lane of a film.
fn low_of(film: Film, lane: u64) -> Low
    requires lane_nonzero { (0 < lane) × (lane < film.floor) }
    requires floor_le_cap { (film.floor ≤ film.cap) × (film.cap ≤ count_max) }
    ensures { LowOf film lane result }
{
    Low {
        floor: film.floor,
        cap: film.cap,
        lane,
        width: slot(film.cap, film.floor),
        own: pow2(lane),
    }
}

// The highest power of two within a number.
fn highest(n: u64) -> u64
    requires { (0 < n) × (n ≤ 2 ^ count_max) }
    ensures { (k : ℕ) × (result ≡ 2 ^ k) × (result ≤ n) × (n < 2 ^ suc k) }
{
    pow2(u64::from(n.ilog2()))
}

// Of two spans the long one where so many ticks are within a slot.
fn span_by(left: u64, width: u64, long: u64, short: u64) -> u64
    ensures { result ≡ pick (leb left width) long short }
{
    if left <= width { long } else { short }
}

// Till when the boxes of all counts take the lane's cell, with so many deciding ticks.
fn till(ends: &[u64; COUNT_PLACES], s: Low, left: u64) -> u64
    requires lower { Lower s }
    requires count_places_value { row_ok ends.now count_places ≡ true }
    ensures { IsTill ends.now s.floor s.cap s.lane left result }
{
    let cap = s.cap;
    let long = s.width * s.own;
    let short = s.width * pow2(s.lane - 1);
    let mut most: u64 = 0;
    // kept: a walk shared with `latest_above` would take a closure for what each end moves by, and find here a latest end that nobody asks
    for count in s.floor..cap + 1 {
        let ended = ends[count as usize];
        let width = slot(cap, count);
        most = most.max(moved(ended, span_by(left, width, long, short) - width));
    }
    most
}

// The segment that the lane carries at a tick: so many after its first.
fn place_at(s: Low, tick: u64) -> u64
    requires { Lower s }
    ensures { IsRest (place_at s.floor s.cap s.lane tick) (2 ^ s.lane) result }
{
    tick / s.width % s.own
}

// The ticks that are left of the slot that holds a tick.
fn left_at(s: Low, tick: u64) -> u64
    requires { Lower s }
    ensures { Exactly (left_at s.floor s.cap tick) 1 (2 ^ count_max) result }
{
    s.width - tick % s.width
}

// The length of a stretch from a tick on: what is left of the slot, and of the first segment as far as the same counts take it long.
fn length_at(s: Low, tick: u64) -> u64
    requires { Lower s }
    ensures { IsLength s.floor s.cap s.lane tick result }
{
    let left = left_at(s, tick);
    let place = place_at(s, tick);
    if place == 0 {
        if left == 1 {
            return 1;
        }
        return left - highest(left - 1);
    }
    left
}

// Till when the boxes of all counts take the lane's cells from a tick on; `late` is that of a segment after the first.
fn till_at(ends: &[u64; COUNT_PLACES], s: Low, late: u64, tick: u64) -> u64
    requires lower { Lower s }
    requires count_places_value { row_ok ends.now count_places ≡ true }
    requires till { IsTill ends.now s.floor s.cap s.lane 0 late }
    ensures { IsTill ends.now s.floor s.cap s.lane (decisive s.floor s.cap s.lane tick) result }
{
    let place = place_at(s, tick);
    if place == 0 {
        return till(ends, s, left_at(s, tick));
    }
    late
}

// How many ticks of a stretch are owed, its first ones: while a box takes them, and as far as there is film.
fn ticks_at(s: Low, till: u64, film: u64, tick: u64, length: u64) -> u64
    requires { Lower s }
    ensures { result ≡ min length (min (till - tick) (film - cell_at s.floor s.cap s.lane tick)) }
{
    let cell = (s.own - 1 + place_at(s, tick)) * s.width + tick % s.width;
    length.min(till.saturating_sub(tick).min(film.saturating_sub(cell)))
}

// How many ticks a lane owes that is dropped at a tick.
pub fn owed_low(t: Title, lane: u64, at: u64) -> u64
    requires owing { Owing t }
    requires lane_nonzero { (0 < lane) × ((lane < t.film.floor) × (at ≤ asked_max)) }
    requires fact { t.film.kind ≡ steady_kind → ⊥ }
    ensures { result ≡ kept_within t lane at (reachOf t.film.cap) }
{
    let film = t.film;
    let s = low_of(film, lane);
    let cells = film_cells(film);
    let late = till(&t.ends, s, 0);
    let end = pow2(film.cap - 1).min(late.saturating_sub(at));
    let mut owed = 0;
    let mut i = 0;
    // kept: one walk for this loop and that of `nth_low` would compare each stretch's ticks with a number that is asked for here by nobody
    while i < end {
        let length = length_at(s, at + i).min(end - i);
        owed += ticks_at(s, till_at(&t.ends, s, late, at + i), cells, at + i, length);
        i += length;
    }
    owed
}

// How far from the drop the owed tick lies that has `nth` owed ticks before it; the reach where there is none.
pub fn nth_low(t: Title, lane: u64, at: u64, nth: u64) -> u64
    requires owing { Owing t }
    requires lane_nonzero { (0 < lane) × ((lane < t.film.floor) × (at ≤ asked_max)) }
    requires fact { t.film.kind ≡ steady_kind → ⊥ }
    ensures { Exactly (first (kept_nth t lane at nth) (reachOf t.film.cap)) 0 (2 ^ count_max) result }
{
    let film = t.film;
    let s = low_of(film, lane);
    let cells = film_cells(film);
    let late = till(&t.ends, s, 0);
    let reach = pow2(film.cap - 1);
    let end = reach.min(late.saturating_sub(at));
    let mut owed = 0;
    let mut i = 0;
    while i < end {
        let length = length_at(s, at + i).min(end - i);
        let ticks = ticks_at(s, till_at(&t.ends, s, late, at + i), cells, at + i, length);
        if nth < owed + ticks {
            return i + (nth - owed);
        }
        owed += ticks;
        i += length;
    }
    reach
}

// Whether lane 0 was dropped where nobody awaits a cell of it: a box has all of it within its first slot.
pub fn is_idle(ends: &[u64; COUNT_PLACES], film: Film, at: u64) -> bool
    requires floor_cap { FloorCap film.floor film.cap }
    requires count_places_value { row_ok ends.now count_places ≡ true }
    ensures { result ≡ true → Idle ends.now film at }
{
    let latest = latest_above(ends, film.cap, film.floor - 1);
    latest.end <= at && at % slot(film.cap, film.floor) == 0
}
