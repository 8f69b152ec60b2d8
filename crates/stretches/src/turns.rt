// The stretches of a lane of a skip-forward title. Its boxes take a lane for one turn, so that what is awaited after a drop lies in the
// turn that runs then, and in the next.

ghost use Rattle.std.specs.Prelude.{◌≤◌, ◌<◌, ◌≡◌};
ghost use Rattle.rules.specs.Limits.{asked_max};
ghost use Rattle.grid.specs.Bounds.{tick_max};
ghost use Rattle.scheme.specs.Scheme.{steady_kind};
ghost use Rattle.measures.specs.Readable.{Filmed};
ghost use Rattle.stretches.specs.inner.Turns.{turn_due, TurnsAt};

use crate::latest::moved;
use crate::upper::film_cells;
use scheme::{lane_cell, period};
use story::Film;

// What is left of the turn that runs at a drop, how many of its ticks are owed, and how many of the next turn's: the first of each.
#[derive(Clone, Copy)]
pub struct Turns {
    pub left: u64,
    pub first: u64,
    pub second: u64,
}

// How many ticks are owed from a tick on, were its turn long enough.
fn due_at(film: Film, ended: u64, lane: u64, tick: u64) -> u64
    requires filmed { Filmed film }
    requires kind_value { (film.kind ≡ steady_kind) × (lane < film.cap) }
    requires ended_le_asked_max { (ended ≤ asked_max) × (tick ≤ tick_max) }
    ensures { result ≡ turn_due film lane ended tick }
{
    let till = moved(ended, period(lane) - 1);
    let cell = lane_cell(film.kind, film.floor, film.cap, lane, tick);
    till.saturating_sub(tick)
        .min(film_cells(film).saturating_sub(cell))
}

// The two turns of a lane dropped at a tick, after its count had ended so.
pub fn turns_at(film: Film, ended: u64, lane: u64, at: u64) -> Turns
    requires filmed { Filmed film }
    requires kind_value { (film.kind ≡ steady_kind) × (lane < film.cap) }
    requires ended_le_asked_max { (ended ≤ asked_max) × (at ≤ asked_max) }
    ensures { TurnsAt film lane ended at result }
{
    let turn = period(lane);
    let left = turn - at % turn;
    Turns {
        left,
        first: left.min(due_at(film, ended, lane, at)),
        second: due_at(film, ended, lane, at + left),
    }
}
