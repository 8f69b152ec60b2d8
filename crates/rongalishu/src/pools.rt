// What is asked of a whole pool: its status, the sharing of its lanes, and the planner's list.

ghost use Rattle.sharing.specs.Verdict.{ShareAnswered};
ghost use Rattle.std.specs.Prelude.{◌≡◌, map, eqb, length};
ghost use Rattle.rules.specs.Refusals.{pick};
ghost use Rattle.story.specs.Calls.{status_count, status_held, status_mark};
ghost use Rattle.agent_rows.specs.Packed.{unpacked};
ghost use Rattle.row_calls.specs.Answers.{row_status};
ghost use Rattle.rongalishu.specs.Pools.{PlannerGiven};

use crate::results::give;
use rules::WRONG_ROWS;

// Counts, lanes held and held marks of the titles asked for, by id.
pub fn rl_status_row(
    agent: &[u64],
    time: u64,
    ids: &[u64],
    counts: &mut [u64],
    held: &mut [u64],
    marks: &mut [u64],
) -> u8
    ensures value { result ≡ row_status agent.now time ids.now
        (length counts.old) (length held.old) (length marks.old) }
    ensures counts_after { counts.new
        ≡ pick (eqb result 0) (map (λ i. status_count (unpacked agent.now).state i) ids.now) counts.old }
    ensures held_after { held.new
        ≡ pick (eqb result 0) (map (λ i. status_held (unpacked agent.now).state i time) ids.now) held.old }
    ensures marks_after { marks.new
        ≡ pick (eqb result 0) (map (λ i. status_mark (unpacked agent.now).state i) ids.now) marks.old }
{
    row_calls::titles::status(agent, time, ids, counts, held, marks)
}

// The changes that bring the counts to the sharing of the pool, into the first places of three rows, and how many they are into
// the first place of a fourth.
pub fn rl_planner_row(
    agent: &[u64],
    time: u64,
    rates: &[u32],
    ids: &mut [u64],
    times: &mut [u64],
    counts: &mut [u64],
    moves: &mut [u64],
) -> u8
    ensures { PlannerGiven agent.now time rates.now ids.old times.old
        counts.old moves.old result ids.new times.new counts.new
        moves.new }
{
    if moves.len() < 1 {
        return WRONG_ROWS;
    }
    let told = row_questions::planner(agent, time, rates, ids, times, counts);
    give(told.answer, &[told.many], moves)
}

// The counts that share a pool, into the first places of a row.
pub fn rl_share_row(
    pool: u64,
    rates: &[u32],
    lengths: &[u32],
    floors: &[u32],
    caps: &[u32],
    counts: &mut [u32],
) -> u8
    ensures { ShareAnswered pool rates.now lengths.now floors.now caps.now
        counts.old result counts.new }
{
    sharing::share(pool, rates, lengths, floors, caps, counts)
}
