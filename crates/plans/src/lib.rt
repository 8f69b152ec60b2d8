// The plans of boxes: how many ticks after its start a box takes each cell, of a padded title and of a skip-forward one. `plan`
// and `skip_plan` are customers' calls and have no `requires`.
#![tactic(auto)]

ghost use Rattle.plans.specs.Row.{Planned, SkipPlanned};

use rules::DONE;

pub mod forward;
pub mod padded;
mod rows;

// The place of a cell that is never taken.
pub const NEVER: u16 = 65_535;

// kept: a customer's call gives back 01's number (docs/PROMISES.md, "Public calls"; `rongalishu_c`).
// Writes the plan of a box that starts at tick `arrival` under `count` into the first 2^cap places of the row, each cell's
// tick minus the arrival, 65535 for the last slot's cells; later places stay. A refusal writes nothing.
pub fn plan(floor: u64, cap: u64, count: u64, arrival: u64, row: &mut [u16]) -> u8
    ensures { Planned floor cap count arrival row.old result row.new }
{
    if let Err(refusal) = padded::answer(floor, cap, count, arrival, row.len()) {
        return refusal.number();
    }
    padded::fill(floor, cap, count, arrival, row);
    DONE
}

// Writes the plan of a box that starts at tick `arrival` of a title with `count` lanes into the first 2^(count - 1) places of
// the row, for each block the ticks from the start to its first occurrence; later places stay. A refusal writes nothing.
pub fn skip_plan(count: u64, arrival: u64, row: &mut [u16]) -> u8
    ensures { SkipPlanned count arrival row.old result row.new }
{
    if let Err(refusal) = forward::answer(count, arrival, row.len()) {
        return refusal.number();
    }
    forward::fill(count, arrival, row);
    DONE
}
