// What a lane question and a question of all titles answer, in 01's order, and from when on a title may change again.
#![tactic(auto, unfolding(rules::specs::Refusals::first_hit, crate::specs::Asked::asked_answer, crate::specs::Asked::settled_in, story::specs::Calls::lane_answer))]

ghost use Rattle.std.specs.Prelude.{◌≡◌, leb};
ghost use Rattle.rules.specs.Limits.{both, id_max, lane_max, asked_max};
ghost use Rattle.rules.specs.Told.{told};
ghost use Rattle.story.specs.Kept.{state_ok};
ghost use Rattle.story.specs.Calls.{lane_held, lane_answer};
ghost use Rattle.measures.specs.Readable.{Readable};
ghost use Rattle.questions.specs.Asked.{asked_answer, settled_in};

use limits::state_ok;
use measures::lanes::is_held;
use measures::slots::title_of;
use measures::ticks::{settled_at, tick_at};
use rules::answers::Refusal;
use rules::{ASKED_MAX, ID_MAX, LANE_MAX};
use story::{ABSENT, State, Title};

// Whether a lane of a title is held at a time.
fn lane_held(t: Title, lane: u64, time: u64) -> bool
    requires { Readable t }
    ensures { result ≡ lane_held t lane time }
{
    t.mode != ABSENT && lane < t.film.cap && is_held(t, lane, tick_at(t, time))
}

// The numbers of a lane question.
fn lane_ok(s: State, id: u64, lane: u64, time: u64) -> bool
    ensures { result ≡ both (state_ok s) (both (leb id id_max) (both (leb lane lane_max) (leb time asked_max))) }
{
    state_ok(s) && id <= ID_MAX && lane <= LANE_MAX && time <= ASKED_MAX
}

// Of a lane question.
pub fn lane_verdict(s: State, id: u64, lane: u64, time: u64) -> Result<(), Refusal>
    ensures { told result ≡ lane_answer s id lane time }
{
    if !lane_ok(s, id, lane, time) {
        return Err(Refusal::OutsideLimits);
    }
    let t = title_of(s, id);
    if time < t.last {
        return Err(Refusal::TooEarly);
    }
    if !lane_held(t, lane, time) {
        return Err(Refusal::NotThere);
    }
    Ok(())
}

// At a time, where the question's other numbers are within their limits or not.
pub fn asked_verdict(s: State, time: u64, others: bool) -> Result<(), Refusal>
    ensures { told result ≡ asked_answer s time others }
{
    if !(state_ok(s) && time <= ASKED_MAX && others) {
        return Err(Refusal::OutsideLimits);
    }
    if time < s.last {
        return Err(Refusal::TooEarly);
    }
    Ok(())
}

// The moment from which on a title may change again; 0 where there is no such title, or the state is outside its limits.
pub fn settled(s: State, id: u64) -> u64
    ensures { result ≡ settled_in s id }
{
    if !(state_ok(s) && id <= ID_MAX) {
        return 0;
    }
    let t = title_of(s, id);
    if t.mode == ABSENT {
        return 0;
    }
    settled_at(t)
}
