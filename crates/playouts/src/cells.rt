// What the lanes of a title carry while it stays as it stands, into a row of numbers whose first is that of lane 0 at tick `from`.

ghost use Rattle.std.specs.Prelude.{◌*◌, ◌≤◌, ◌≡◌};
ghost use Rattle.rules.specs.Limits.{lane_places};
ghost use Rattle.grid.specs.Bounds.{Exactly, tick_max};
ghost use Rattle.measures.specs.Readable.{Sending};
ghost use Rattle.judging.specs.Record.{ticks_max};
ghost use Rattle.playouts.specs.inner.Steps.{standing_number, place_from, filled_to, RowToFill};

use judging::{NOTHING_SEEN, TICKS_MAX};
use measures::lanes::is_held;
use measures::ticks::{since, tick_at};
use owed::sending::shown_tick;
use rules::LANE_PLACES;
use scheme::lane_cell;
use story::Title;

// The cell of a lane at a tick, or nothing where it is not held.
fn number_in(t: Title, lane: u64, tick: u64) -> u16
    requires sending { Sending t }
    requires tick_le_tick_max { tick ≤ tick_max }
    ensures { result ≡ standing_number t lane tick }
{
    let film = t.film;
    if lane < film.cap && is_held(t, lane, tick) {
        let shown = shown_tick(t, lane, tick);
        return lane_cell(film.kind, film.floor, film.cap, lane, shown) as u16;
    }
    NOTHING_SEEN
}

// The place of lane 0 at a tick, no further than rows go.
fn place_from(from: u64, tick: u64) -> u64
    ensures { Exactly (place_from from tick) 0 (ticks_max * lane_places) result }
{
    since(from, tick).min(TICKS_MAX as u64) * LANE_PLACES as u64
}

// Fills in the ticks from a title's latest event up to `upto`, as far as the row goes, as the title stands.
pub fn fill_to(t: Title, from: u64, upto: u64, numbers: &mut [u16])
    requires sending { Sending t }
    requires row_to_fill { RowToFill from numbers.old }
    ensures { numbers.new ≡ filled_to t from upto numbers.old }
{
    let lanes = LANE_PLACES as u64;
    let end = place_from(from, upto).min(numbers.len() as u64);
    for j in place_from(from, tick_at(t, t.last))..end {
        numbers[j as usize] = number_in(t, j % lanes, from + j / lanes);
    }
}
