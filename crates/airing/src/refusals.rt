// The refusals that do not hang on the log, and that of a record's numbers.

ghost use Rattle.std.specs.Prelude.{◌≤◌, ◌≡◌, eqb, ltb};
ghost use Rattle.rules.specs.Limits.{count_max, either};
ghost use Rattle.judging.specs.Record.{nothing_seen};
ghost use Rattle.airing.specs.Air.{in_limits, has_room_for, all_cells};
ghost use Rattle.airing.specs.inner.Steps.{rows_answer};

use grid::pow2;
use judging::{NOTHING_SEEN, TICKS_MAX};
use rules::{DONE, ID_MAX, LANE_PLACES, OUTSIDE_LIMITS, POOL_MAX, POOL_MIN, WRONG_ROWS, within};

// Whether pool and title are within their limits.
#[tactic(auto, using(std::proofs::lemmas::Bool::Decides::nat_tests))]
pub fn in_limits(pool: u64, title: u64) -> bool
    ensures { result ≡ in_limits pool title }
{
    within(POOL_MIN, POOL_MAX, pool) && title <= ID_MAX
}

// Whether a record has whole ticks, not too many, and a room a place for each.
#[tactic(auto, using(std::proofs::lemmas::Bool::Decides::nat_tests), unfolding(crate::specs::Air::has_room_for))]
fn has_room(record: &[u16], room: usize) -> bool
    ensures { result ≡ has_room_for «record».now room }
{
    let ticks = record.len() / LANE_PLACES;
    record.len() % LANE_PLACES == 0 && ticks <= TICKS_MAX && ticks <= room
}

// The refusals before the log is read, in their order.
pub fn first_answer(pool: u64, title: u64, record: &[u16], room: usize) -> u8
    ensures { result ≡ rows_answer pool title «record».now room }
{
    if in_limits(pool, title) {
        if has_room(record, room) {
            return DONE;
        }
        return WRONG_ROWS;
    }
    OUTSIDE_LIMITS
}

// Whether a number is one of so many cells, or nothing.
pub fn is_cell(seen: u16, cells: u16) -> bool
    ensures { result ≡ either (eqb seen nothing_seen) (ltb seen cells) }
{
    seen == NOTHING_SEEN || seen < cells
}

// Whether every number of a record is a cell of a title, or nothing.
pub fn all_cells(cap: u64, record: &[u16]) -> bool
    requires { cap ≤ count_max }
    ensures { result ≡ all_cells cap «record».now }
{
    let cells = pow2(cap) as u16;
    // every number is asked, so that a compiler asks several at once
    let mut ok = true;
    for seen in record {
        ok = is_cell(*seen, cells) & ok;
    }
    ok
}
