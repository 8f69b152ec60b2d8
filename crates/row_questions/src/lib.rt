// The planner's list and the small box's lane question, asked of an agent that a caller lends as a row of numbers. No public call has a
// `requires`; a refusal writes nothing.
#![tactic(auto)]

pub mod small;
pub mod standing;

ghost use Rattle.row_questions.specs.Questions.{RowListed};

use agent_rows::ROW_LENGTH;
use planner::Listed;
use rules::WRONG_ROWS;
use standing::state_in;

// Lists the changes that bring the counts to the sharing of the pool.
pub fn planner(
    row: &[u64],
    time: u64,
    rates: &[u32],
    ids: &mut [u64],
    times: &mut [u64],
    counts: &mut [u64],
) -> Listed
    ensures { RowListed row.now time rates.now ids.old times.old
        counts.old result.answer result.many ids.new times.new counts.new }
{
    if row.len() == ROW_LENGTH {
        return planner::planner(state_in(row), time, rates, ids, times, counts);
    }
    Listed {
        answer: WRONG_ROWS,
        many: 0,
    }
}
