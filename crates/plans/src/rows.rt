// The row of a plan, filled by runs. The cells of a channel, or of a steady lane, are a run, twice as long as the one before: a box takes
// one a tick, from the cell that is on air at its start to the last, and then the first ones. So each run is two rises.

ghost use Rattle.std.specs.Prelude.{◌+◌, ◌-◌, ◌^◌, ◌≤◌, ◌<◌, ◌≡◌, length};
ghost use Rattle.rules.specs.Limits.{count_max};
ghost use Rattle.plans.specs.inner.Rows.{written_from, rising_at, run_at, runs_at};

use grid::pow2;

// Writes `first` and the numbers after it into `many` places from `from` on.
fn rise(from: u64, many: u64, first: u64, row: &mut [u16])
    requires many_in_bounds { from + many ≤ length row.old }
    requires many_bound { first + many ≤ 2 ^ count_max }
    ensures { row.new ≡ written_from (rising_at from first) row.old from many }
{
    for risen in 0..many {
        row[(from + risen) as usize] = (first + risen) as u16;
    }
}

// Writes `value` into `many` places from `from` on.
pub(crate) fn level(from: u64, many: u64, value: u16, row: &mut [u16])
    requires { from + many ≤ length row.old }
    ensures { row.new ≡ written_from (λ _. value) row.old from many }
{
    row[from as usize..(from + many) as usize].fill(value);
}

// Writes a run of `many` cells, of which the one behind `off` others is taken first.
fn run(from: u64, many: u64, off: u64, row: &mut [u16])
    requires many_in_bounds { from + many ≤ length row.old }
    requires off_lt_many { (off < many) × (many ≤ 2 ^ count_max) }
    ensures { row.new ≡ written_from (run_at from many off) row.old from many }
{
    rise(from, off, many - off, row);
    rise(from + off, many - off, 0, row);
}

// Writes the runs of 2^low, twice as many, .., 2^(high - 1) cells, each `base` places before the one that its length names; at the start
// every run is `phase` cells on.
pub(crate) fn runs(low: u64, high: u64, base: u64, phase: u64, row: &mut [u16])
    requires low_le_high { (low ≤ high) × (high ≤ count_max) }
    requires base_bound { (base ≤ 2 ^ low) × (2 ^ high - base ≤ length row.old) }
    ensures { row.new ≡ written_from (runs_at base phase) row.old (2 ^ low - base) (2 ^ high - 2 ^ low) }
{
    for power in low..high {
        let many = pow2(power);
        run(many - base, many, phase % many, row);
    }
}
