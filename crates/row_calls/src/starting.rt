// A fresh agent laid into a lent row.

ghost use Rattle.std.specs.Prelude.{◌≡◌};
ghost use Rattle.rules.specs.Told.{told};
ghost use Rattle.row_calls.specs.Answers.{row_fresh, row_after_fresh};

use agent_rows::{POOL_AT, ROW_LENGTH, ROW_VERSION, VERSION_AT};
use rules::answers::{Refusal, told};
use rules::{POOL_MAX, POOL_MIN, within};

// A fresh agent of a pool, whatever the row was.
fn begun(row: &mut [u64], pool: u64) -> Result<(), Refusal>
    ensures { (told result ≡ row_fresh row.old pool) × (row.new ≡ row_after_fresh row.old pool) }
{
    if row.len() != ROW_LENGTH {
        return Err(Refusal::WrongRows);
    }
    if !within(POOL_MIN, POOL_MAX, pool) {
        return Err(Refusal::OutsideLimits);
    }
    row.fill(0);
    row[VERSION_AT] = ROW_VERSION;
    row[POOL_AT] = pool;
    Ok(())
}

// kept: a customer's call gives back 01's number (docs/PROMISES.md, "Public calls"; `rongalishu_c`).
// The same, with the number of its refusal.
pub fn fresh(row: &mut [u64], pool: u64) -> u8
    ensures { (result ≡ row_fresh row.old pool) × (row.new ≡ row_after_fresh row.old pool) }
{
    told(begun(row, pool))
}
