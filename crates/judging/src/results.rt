// What a box that begins at a tick gets, for each tick from which its play ticks lie in the record.

ghost use Rattle.std.specs.Prelude.{◌+◌, ◌≤◌, ◌<◌, ◌≡◌, leb, length as places};
ghost use Rattle.rules.specs.Limits.{plan_places, length_max};
ghost use Rattle.judging.specs.Record.{lowest, ticks_in, ticks_max};
ghost use Rattle.judging.specs.inner.Walk.{is_late, Results};

use crate::{NOTHING_SEEN, TICKS_MAX, next};
use rules::LANE_PLACES;

// Whether a cell holds film and is next shown after its turn, or never, for a box that begins at tick `start`.
fn is_late(next: &[u16], length: u64, tick: u64, start: usize, cell: usize) -> bool
    requires cell_lt_plan_places { (cell < plan_places) × (places next.now ≡ plan_places) }
    requires tick_in_bounds { (tick ≤ length_max) × (start < ticks_max) }
    ensures { result ≡ is_late length tick next.now start cell }
{
    cell as u64 * tick < length && start + cell < next[cell] as usize
}

// The lowest such cell.
fn lowest_late(next: &[u16], cells: usize, length: u64, tick: u64, start: usize) -> u16
    requires cells_le_plan_places { (cells ≤ plan_places) × (places next.now ≡ plan_places) }
    requires tick_in_bounds { (tick ≤ length_max) × (start < ticks_max) }
    ensures { result ≡ lowest (is_late length tick next.now start) cells }
{
    for cell in 0..cells {
        if is_late(next, length, tick, start, cell) {
            return cell as u16;
        }
    }
    NOTHING_SEEN
}

// Whether the play ticks of a box that begins at tick `start`, one for each cell, lie in the record.
pub fn is_whole(cells: usize, ticks: usize, start: usize) -> bool
    requires { (cells ≤ plan_places) × (start < ticks_max) }
    ensures { result ≡ leb (start + cells) ticks }
{
    start + cells <= ticks
}

// A row of results, before there are any.
fn blank() -> [u16; TICKS_MAX]
    ensures { places result ≡ ticks_max }
{
    [NOTHING_SEEN; TICKS_MAX]
}

// The results, each at its tick.
pub fn results(air: &[u16], cells: usize, length: u64, tick: u64) -> [u16; TICKS_MAX]
    requires cells_le_plan_places { (cells ≤ plan_places) × (tick ≤ length_max) }
    requires air_bound { ticks_in air.now ≤ ticks_max }
    ensures { Results air.now cells length tick 0 result }
{
    let ticks = air.len() / LANE_PLACES;
    let mut next = next::never(air);
    let mut results = blank();
    for start in (0..ticks).rev() {
        next::note(air, start, &mut next);
        if is_whole(cells, ticks, start) {
            results[start] = lowest_late(&next, cells, length, tick, start);
        }
    }
    results
}
