// The plan of a skip-forward title's box (02, 12): the call's answer, and the row that says how many ticks after its start it takes each block.

ghost use Rattle.std.specs.Prelude.{◌-◌, ◌^◌, ◌≤◌, ◌≡◌, length};
ghost use Rattle.rules.specs.Limits.{count_min, steady_max};
ghost use Rattle.rules.specs.Told.{told};
ghost use Rattle.plans.specs.Forward.{skip_at, skip_plan_limits, skip_answer};
ghost use Rattle.plans.specs.Row.{written};

use super::rows::runs;
use grid::pow2;
use rules::answers::Refusal;
use rules::{ASKED_MAX, COUNT_MIN, STEADY_MAX, within};

// Whether the two numbers are within their limits.
fn in_limits(count: u64, arrival: u64) -> bool
    ensures { result ≡ skip_plan_limits count arrival }
{
    within(COUNT_MIN, STEADY_MAX, count) && arrival <= ASKED_MAX
}

// The call's answer for a lent row of `places` places, by the order of refusals.
pub(crate) fn answer(count: u64, arrival: u64, places: usize) -> Result<(), Refusal>
    ensures { told result ≡ skip_answer count arrival places }
{
    if !in_limits(count, arrival) {
        return Err(Refusal::OutsideLimits);
    }
    if (places as u64) < pow2(count - 1) {
        return Err(Refusal::WrongRows);
    }
    Ok(())
}

// Writes the plan into the first places of the row, one for each block: the first is always on air, and the others are the lanes' runs.
pub(crate) fn fill(count: u64, arrival: u64, row: &mut [u16])
    requires count_min_le_count { (count_min ≤ count) × (count ≤ steady_max) }
    requires count_in_bounds { 2 ^ (count - 1) ≤ length row.old }
    ensures { row.new ≡ written (skip_at count arrival) row.old (2 ^ (count - 1)) }
{
    row[0] = 0;
    runs(0, count - 1, 0, arrival, row);
}
