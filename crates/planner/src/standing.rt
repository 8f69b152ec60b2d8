// Which questions are refused before any wish is worked out, and with which number.

ghost use Rattle.std.specs.Prelude.{◌≡◌};
ghost use Rattle.rules.specs.Told.{told};
ghost use Rattle.planner.specs.inner.Steps.{question_ok, standing_answer};

use limits::state_ok;
use rules::EVENT_TIME_MAX;
use rules::answers::Refusal;
use sharers::{floors, rates_ok, shared_pool};
use story::State;

// Every number of the question is within its limits.
#[tactic(auto, using(std::proofs::lemmas::Bool::Decides::nat_tests), unfolding(crate::specs::inner::Steps::question_ok))]
fn numbers_ok(s: State, time: u64, rates: &[u32]) -> bool
    ensures { result ≡ question_ok s time rates.now }
{
    state_ok(s) && time <= EVENT_TIME_MAX && rates_ok(rates)
}

// The answer as far as the numbers, the last event and the floors decide it.
#[tactic(auto, unfolding(rules::specs::Refusals::first_hit, crate::specs::inner::Steps::standing_answer))]
pub fn standing(s: State, time: u64, rates: &[u32]) -> Result<(), Refusal>
    ensures { told result ≡ standing_answer s time rates.now }
{
    if !numbers_ok(s, time, rates) {
        return Err(Refusal::OutsideLimits);
    }
    if time < s.last {
        return Err(Refusal::TooEarly);
    }
    if shared_pool(s) < floors(s) {
        return Err(Refusal::NoLanes);
    }
    Ok(())
}
