// The planner (02, 11 and 12): the changes that bring a pool to its sharing, each with the moment at which it may come. It
// leaves skip-forward titles out, and the lanes of those that are open out of the pool that it shares.
//
// `planner` is the one call. It has no `requires`: its contract settles the answer, the number of events and the three lent
// rows for all inputs. It changes no state: the list is for the head-end, which enters the events one by one.
#![tactic(auto)]

ghost use Rattle.std.specs.Prelude.{◌≡◌, length};
ghost use Rattle.rules.specs.Limits.{titles_max};
ghost use Rattle.rules.specs.Told.{refusal_number};
ghost use Rattle.planner.specs.Outcome.{Answered};
ghost use Rattle.planner.specs.inner.Steps.{standing_answer};

use rules::answers::Refusal;
use rules::{DONE, EVENT_TIME_MAX, TITLES_MAX};
use story::State;
use wishes::wishes_of;

mod rows;
mod standing;
mod times;

// kept: a customer's call gives back 01's number (docs/PROMISES.md, "Public calls"; `rongalishu_c`).
// What the planner gives back: the answer, and how many events it listed, none beside a refusal.
#[derive(Clone, Copy)]
pub struct Listed {
    pub answer: u8,
    pub many: u64,
}

fn refused(refusal: Refusal) -> Listed
    ensures { (result.answer ≡ refusal_number refusal) × (result.many ≡ 0) }
{
    Listed {
        answer: refusal.number(),
        many: 0,
    }
}

// The list of a question whose numbers, time and floors are in order, over sixteen rates.
fn list(
    s: State,
    time: u64,
    rates: &[u32],
    ids: &mut [u64],
    times: &mut [u64],
    counts: &mut [u64],
) -> Listed
    requires { (standing_answer s time rates.now ≡ 0) × (length rates.now ≡ titles_max) }
    ensures { Answered s time rates.now ids.old times.old counts.old
        result.answer result.many ids.new times.new counts.new }
{
    let w = wishes_of(s, rates);
    let many = w.many;
    let room = ids.len().min(times.len().min(counts.len()));
    if room < many {
        return refused(Refusal::WrongRows);
    }
    let t = times::times_of(s, time, w);
    if EVENT_TIME_MAX < t.last {
        return refused(Refusal::PastClock);
    }
    let titles = w.titles;
    let moments = t.row;
    let shares = w.counts;
    rows::write(&titles, many, ids);
    rows::write(&moments, many, times);
    rows::write(&shares, many, counts);
    Listed {
        answer: DONE,
        many: many as u64,
    }
}

// Lists the changes that bring the counts to the sharing of the pool, from a time on, over sixteen rates by id: first the
// drops, then the raises, each at the earliest time at which it would be accepted after those before it. Titles, times and
// counts go into the first places of the three rows, later places stay. The answer is 0, or the first that hits of 1 (a
// number outside its limits), 2 (before the last event), 9 (the floors exceed what is shared), 10 (not sixteen rates, or too
// little room) and 18 (an event would fall after the clock's last time); a refusal writes nothing.
pub fn planner(
    s: State,
    time: u64,
    rates: &[u32],
    ids: &mut [u64],
    times: &mut [u64],
    counts: &mut [u64],
) -> Listed
    ensures { Answered s time rates.now ids.old times.old counts.old
        result.answer result.many ids.new times.new counts.new }
{
    if let Err(refusal) = standing::standing(s, time, rates) {
        return refused(refusal);
    }
    if rates.len() != TITLES_MAX {
        return refused(Refusal::WrongRows);
    }
    list(s, time, rates, ids, times, counts)
}
