// The plan of a padded title's box: the call's answer, and the row that says at which tick after its start the box takes each cell.

ghost use Rattle.std.specs.Prelude.{◌^◌, ◌≤◌, ◌≡◌, true, length};
ghost use Rattle.rules.specs.Limits.{asked_max};
ghost use Rattle.rules.specs.Told.{told};
ghost use Rattle.grid.specs.Bounds.{Counted};
ghost use Rattle.scheme.specs.Scheme.{padded, starts as startsAt};
ghost use Rattle.plans.specs.Padded.{plan_at, plan_limits, plan_answer};
ghost use Rattle.plans.specs.Row.{written};

use super::NEVER;
use super::rows::{level, runs};
use grid::{pow2, slot};
use rules::answers::Refusal;
use rules::{ASKED_MAX, COUNT_MAX, COUNT_MIN, FLOOR_MAX, FLOOR_MIN, within};
use scheme::{PADDED, starts};

// Whether the four numbers are within their limits.
fn in_limits(floor: u64, cap: u64, count: u64, arrival: u64) -> bool
    ensures { result ≡ plan_limits floor cap count arrival }
{
    within(FLOOR_MIN, FLOOR_MAX, floor)
        && within(COUNT_MIN, COUNT_MAX, cap)
        && within(COUNT_MIN, COUNT_MAX, count)
        && arrival <= ASKED_MAX
}

// The call's answer for a lent row of `places` places, by the order of refusals.
pub fn answer(floor: u64, cap: u64, count: u64, arrival: u64, places: usize) -> Result<(), Refusal>
    ensures { told result ≡ plan_answer floor cap count arrival places }
{
    if !in_limits(floor, cap, count, arrival) {
        return Err(Refusal::OutsideLimits);
    }
    if cap < floor {
        return Err(Refusal::FloorAboveCap);
    }
    if count < floor {
        return Err(Refusal::BelowFloor);
    }
    if cap < count {
        return Err(Refusal::AboveCap);
    }
    if !starts(PADDED, floor, cap, count, arrival) {
        return Err(Refusal::NotAtSlot);
    }
    if (places as u64) < pow2(cap) {
        return Err(Refusal::WrongRows);
    }
    Ok(())
}

// Writes the plan into the first places of the row, one for each cell: the channels' runs, and the last slot's cells, which no
// channel carries.
pub(crate) fn fill(floor: u64, cap: u64, count: u64, arrival: u64, row: &mut [u16])
    requires counted { Counted floor cap count }
    requires arrival_value { startsAt (padded floor cap) count arrival ≡ true }
    requires arrival_le_asked_max { (arrival ≤ asked_max) × (2 ^ cap ≤ length row.old) }
    ensures { row.new ≡ written (plan_at floor cap count arrival) row.old (2 ^ cap) }
{
    let width = slot(cap, count);
    // the start behind the shift, and a whole round of every channel more: never below zero
    let phase = arrival + width + (pow2(cap) - pow2(cap - floor));
    runs(cap - count, cap, width, phase, row);
    level(pow2(cap) - width, width, NEVER, row);
}
