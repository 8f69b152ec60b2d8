// The schemes by which titles are sent: the padded grid, and the steady lanes of a skip-forward title (02, 12). A title's kind
// says which; any number but STEADY is the padded grid.
#![tactic(auto)]

ghost use Rattle.std.specs.Prelude.{◌^◌, ◌≤◌, ◌<◌, ◌≡◌};
ghost use Rattle.rules.specs.Limits.{count_max};
ghost use Rattle.grid.specs.Bounds.{Exactly, Length, FloorCap, CountCap, IsCell, tick_max};
ghost use Rattle.scheme.specs.Scheme.{
  period as periodOf,
  scheme_of,
  starts as startsAt,
  steady_cell,
  tick_for,
  film_in,
};

use grid::pow2;

// The kinds.
pub const PADDED: u64 = 0;

pub const STEADY: u64 = 1;

// The ticks after which a steady lane repeats.
pub fn period(lane: u64) -> u64
    requires { lane ≤ count_max }
    ensures { Exactly (periodOf lane) 1 (2 ^ count_max) result }
{
    if lane == 0 {
        return 1;
    }
    pow2(lane - 1)
}

// The cell on a steady lane at a tick.
fn steady_cell(lane: u64, tick: u64) -> u64
    requires { lane ≤ count_max }
    ensures { result ≡ steady_cell lane tick }
{
    if lane == 0 {
        return 0;
    }
    let own = pow2(lane - 1);
    own + tick % own
}

// The ticks in a slot of a count.
pub fn slot(kind: u64, floor: u64, cap: u64, count: u64) -> u64
    requires { CountCap count cap }
    ensures { Exactly ((scheme_of kind floor cap).slot_of count) 1 (2 ^ count_max) result }
{
    if kind == STEADY {
        return 1;
    }
    grid::slot(cap, count)
}

// Whether a tick is a slot start of a count.
pub fn starts(kind: u64, floor: u64, cap: u64, count: u64, tick: u64) -> bool
    requires { CountCap count cap }
    ensures { result ≡ startsAt (scheme_of kind floor cap) count tick }
{
    tick % slot(kind, floor, cap, count) == 0
}

// A title's tick in ms: of a skip-forward title each of its 2^(cap - 1) blocks plays for one.
pub fn tick(kind: u64, length: u64, floor: u64, cap: u64) -> u64
    requires length { Length length }
    requires floor_cap { FloorCap floor cap }
    ensures { Exactly (tick_for kind length floor cap) 1 length result }
{
    if kind == STEADY {
        let blocks = pow2(cap - 1);
        return length.div_ceil(blocks);
    }
    grid::tick(length, floor, cap)
}

// Whether a cell holds film.
pub fn holds_film(kind: u64, length: u64, floor: u64, cap: u64, cell: u64) -> bool
    requires length { Length length }
    requires floor_cap { FloorCap floor cap }
    requires cell_bound { cell < 2 ^ cap }
    ensures { result ≡ film_in length (tick_for kind length floor cap) cell }
{
    cell * tick(kind, length, floor, cap) < length
}

// The cell that an active lane carries at a tick.
pub fn lane_cell(kind: u64, floor: u64, cap: u64, lane: u64, tick: u64) -> u64
    requires floor_cap { FloorCap floor cap }
    requires lane_lt_cap { (lane < cap) × (tick ≤ tick_max) }
    ensures { IsCell cap ((scheme_of kind floor cap).on_lane lane tick) result }
{
    if kind == STEADY {
        return steady_cell(lane, tick);
    }
    grid::lane_cell(floor, cap, lane, tick)
}
