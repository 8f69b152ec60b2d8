// What an event answers, in 01's order: the first refusal that hits. The want of lanes is tested by the call, on the next
// state.

ghost use Rattle.std.specs.Prelude.{◌≡◌, true};
ghost use Rattle.rules.specs.Limits.{both};
ghost use Rattle.rules.specs.Told.{told};
ghost use Rattle.story.specs.Story.{padded_limits, steady_limits, film_limits, act_limits, sets_count};
ghost use Rattle.story.specs.Calls.{event_ok};
ghost use Rattle.verdicts.specs.Before.{first_answer};

use limits::state_ok;
use measures::slots::title_of;
use rules::answers::Refusal;
use rules::{
    COUNT_MAX, COUNT_MIN, EVENT_TIME_MAX, FLOOR_MAX, FLOOR_MIN, ID_MAX, LENGTH_MAX, LENGTH_MIN,
    STEADY_MAX, within,
};
use scheme::STEADY;
use story::{Act, Event, Film, State};
use title_verdicts::title_verdict;

// The numbers that every event has.
pub fn event_ok(s: State, id: u64, time: u64) -> bool
    ensures { result ≡ event_ok s id time }
{
    state_ok(s) && id <= ID_MAX && time <= EVENT_TIME_MAX
}

// The numbers of a film on the padded grid and the count that it opens with.
fn padded_ok(film: Film, count: u64) -> bool
    ensures { result ≡ padded_limits film count }
{
    within(LENGTH_MIN, LENGTH_MAX, film.length)
        && within(FLOOR_MIN, FLOOR_MAX, film.floor)
        && within(COUNT_MIN, COUNT_MAX, film.cap)
        && within(COUNT_MIN, COUNT_MAX, count)
}

// Those of a skip-forward title's, whose floor and cap are its count.
fn steady_ok(film: Film, count: u64) -> bool
    ensures { result ≡ steady_limits film count }
{
    within(LENGTH_MIN, LENGTH_MAX, film.length)
        && within(COUNT_MIN, STEADY_MAX, count)
        && film.floor == count
        && film.cap == count
}

// Those of a film of either kind.
fn film_ok(film: Film, count: u64) -> bool
    ensures { result ≡ film_limits film count }
{
    if film.kind > STEADY {
        return false;
    }
    if film.kind == STEADY {
        return steady_ok(film, count);
    }
    padded_ok(film, count)
}

// The numbers of what an event does.
pub fn act_ok(act: Act) -> bool
    ensures { result ≡ act_limits act true }
{
    match act {
        Act::Opens { film, count } => film_ok(film, count),
        Act::Changes { count } => within(COUNT_MIN, COUNT_MAX, count),
        Act::Closes => true,
        Act::Doors { held: _ } => true,
    }
}

// Whether an event may want lanes: an opening and a change set a count, a close and the doors do not.
pub fn sets_count(act: Act) -> bool
    ensures { result ≡ sets_count act }
{
    match act {
        Act::Opens { film: _, count: _ } => true,
        Act::Changes { count: _ } => true,
        Act::Closes => false,
        Act::Doors { held: _ } => false,
    }
}

// All numbers of an event.
fn numbers_ok(s: State, e: Event) -> bool
    ensures { result ≡ both (event_ok s e.title e.time) (act_limits e.act true) }
{
    event_ok(s, e.title, e.time) && act_ok(e.act)
}

// Of any event: its numbers, the clock, and then its title.
pub fn verdict(s: State, e: Event) -> Result<(), Refusal>
    ensures { told result ≡ first_answer s e }
{
    if !numbers_ok(s, e) {
        return Err(Refusal::OutsideLimits);
    }
    if e.time < s.last {
        return Err(Refusal::TooEarly);
    }
    title_verdict(title_of(s, e.title), e.time, e.act)
}
