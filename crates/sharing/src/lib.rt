// The sharing of lanes among titles (01, "Sharing"; the sum by 02, request 2): the counts with the least sum of
// rate x tick x 2^(K-k), in whole numbers.
//
// `share` is the one call. It has no `requires`: its contract settles the answer and the whole lent row for all inputs,
// by definitions in specs/Verdict and `sharing_choice` specs/Choice that say "least over all choices" and say nothing of how the code
// gets there. The code gives the lanes out one at a time, so its work grows with lanes times titles.
#![tactic(auto)]

ghost use Rattle.sharing.specs.Verdict.{ShareAnswered};

mod verdict;

// Shares a pool of lanes among the titles whose rates, lengths, floors and caps stand in four rows: the counts go into
// the first places of `counts`, later places stay. The answer is 0, or the first that hits of 10 (rows of different
// length, no room for the counts, more than sixteen titles), 1 (a number outside its limits, the pool's included), 15 (a
// floor above its cap) and 9 (the floors exceed the pool); a refusal writes nothing. No titles is done, with nothing
// written, where the pool is within its limits.
pub fn share(
    pool: u64,
    rates: &[u32],
    lengths: &[u32],
    floors: &[u32],
    caps: &[u32],
    counts: &mut [u32],
) -> u8
    ensures { ShareAnswered pool rates.now lengths.now floors.now caps.now
        counts.old result counts.new }
{
    let answer = verdict::verdict(pool, rates, lengths, floors, caps, counts.len());
    if answer == rules::DONE {
        let n = rates.len();
        sharing_choice::giving::fill(pool, rates, lengths, floors, caps, &mut counts[..n]);
    }
    answer
}
