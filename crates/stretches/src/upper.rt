// The stretches of a lane from the floor up, a channel at a time.

ghost use Rattle.std.specs.Prelude.{◌+◌, ◌*◌, ◌-◌, ◌^◌, ◌≤◌, ◌<◌, ◌≡◌};
ghost use Rattle.rules.specs.Limits.{asked_max, count_max};
ghost use Rattle.grid.specs.Ticks.{rounded_up};
ghost use Rattle.grid.specs.Bounds.{Exactly};
ghost use Rattle.story.specs.Life.{tick_by};
ghost use Rattle.measures.specs.Readable.{Filmed};
ghost use Rattle.stretches.specs.inner.Walk.{
  Walkable,
  OnChannel,
  is_reached,
  rest_on,
  from_on,
  ticks_on,
  ticks_to,
  walk_of,
  NthIn,
};

use grid::{pow2, slot};
use scheme::STEADY;
use story::Film;

// A lane dropped at tick `at`, a slot start: the ticks of its slot, the number of that slot as Theorem 1 lifts it, where a slot ends that
// begins with the latest box, and how many cells hold film.
#[derive(Clone, Copy)]
pub struct Walk {
    pub lane: u64,
    pub at: u64,
    pub width: u64,
    pub turn: u64,
    pub until: u64,
    pub film: u64,
}

// The lane is one from the floor up, dropped at one of its slot starts and after every count that had it had ended: events lead nowhere
// else.
pub fn is_reached(film: Film, lane: u64, at: u64, end: u64) -> bool
    requires { (lane < film.cap) × (film.cap ≤ count_max) }
    ensures { result ≡ is_reached film lane at end }
{
    film.kind != STEADY && film.floor <= lane && end <= at && at % slot(film.cap, lane + 1) == 0
}

// How many cells of a film hold some.
pub fn film_cells(film: Film) -> u64
    requires { Filmed film }
    ensures { result ≡ rounded_up film.length (tick_by film) }
{
    let tick = scheme::tick(film.kind, film.length, film.floor, film.cap);
    (film.length + (tick - 1)) / tick
}

// The walk of a lane dropped at a tick. Where no box began, nothing is owed: as of a film without cells.
pub fn walk_of(film: Film, lane: u64, at: u64, until: u64) -> Walk
    requires filmed { Filmed film }
    requires floor_le_lane { (film.floor ≤ lane) × (lane < film.cap) }
    requires at_le_asked_max { at ≤ asked_max }
    ensures { result ≡ walk_of film lane at until }
{
    let width = slot(film.cap, lane + 1);
    let turn = at / width + 1 + (pow2(lane + 1) - pow2(lane + 1 - film.floor));
    let cells = if until == 0 { 0 } else { film_cells(film) };
    Walk {
        lane,
        at,
        width,
        turn,
        until,
        film: cells,
    }
}

// The place of the drop's slot among those of a channel.
fn rest_on(s: Walk, channel: u64) -> u64
    requires { OnChannel s channel }
    ensures { Exactly (rest_on s channel) 0 (2 ^ count_max) result }
{
    s.turn % pow2((channel + 1).min(s.lane))
}

// How far from the drop the channel's slot lies that may still be awaited.
fn from_on(s: Walk, channel: u64) -> u64
    requires { OnChannel s channel }
    ensures { Exactly (from_on s channel) 0 (2 ^ 25) result }
{
    pow2(channel).saturating_sub(rest_on(s, channel) + 1) * s.width
}

// How many ticks of that slot are owed, its first ones: while the latest box takes the channel, and as far as there is film.
fn ticks_on(s: Walk, channel: u64) -> u64
    requires { OnChannel s channel }
    ensures { Exactly (ticks_on s channel) 0 (2 ^ count_max) result }
{
    let rest = rest_on(s, channel);
    let span = pow2(channel);
    if span <= rest {
        return 0;
    }
    let until = s.until + rest * s.width;
    if until <= s.at {
        return 0;
    }
    let film = s.film.saturating_sub((2 * span - 2) * s.width);
    s.width.min((until - s.at).min(film))
}

// How many ticks are owed on all channels.
pub fn owed_in(s: Walk) -> u64
    requires { Walkable s }
    ensures { result ≡ ticks_to s s.lane }
{
    let mut owed = 0;
    for i in 0..s.lane {
        owed += ticks_on(s, i + 1);
    }
    owed
}

// How far from the drop the owed tick lies that has `nth` owed ticks before it; the end of the walk where there is none.
pub fn nth_in(s: Walk, nth: u64) -> u64
    requires { Walkable s }
    ensures { NthIn s nth result }
{
    let mut owed = 0;
    for i in 0..s.lane {
        let ticks = ticks_on(s, i + 1);
        if nth < owed + ticks {
            return from_on(s, i + 1) + (nth - owed);
        }
        owed += ticks;
    }
    pow2(s.lane) * s.width
}
