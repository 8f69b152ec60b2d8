// An event tried at one time after another. Each try is the scheduler's own call, and between two tries every time is refused.

ghost use Rattle.std.specs.Prelude.{◌^◌, ◌≤◌, ◌≡◌, true, false, not, leb};
ghost use Rattle.rules.specs.Limits.{both, event_time_max};
ghost use Rattle.story.specs.Story.{takes_lanes};
ghost use Rattle.story.specs.Kept.{absent_mode, title_ok};
ghost use Rattle.moments.specs.Searched.{Found};
ghost use Rattle.outlook.specs.Outlook.{is_accepted_at, is_mended, first_accepted};
ghost use Rattle.outlook.specs.inner.Tries.{allows, Skips};

use crate::{id_free_from, room_from, start_from};
use moments::PAST;
use moments::starts::{permitted_from, turn_from};
use rules::{
    DONE, EVENT_TIME_MAX, ID_TAKEN, NO_LANES, NOT_AT_SLOT, SECOND_EVENT, TOO_EARLY, TOO_SOON,
};
use scheduler::{call, event_at};
use story::{Act, Event, State, Title};

// Whether an event takes lanes, of a title with a count: an opening, and a change to a larger one.
pub fn takes_lanes(act: Act, count: u64) -> bool
    ensures { result ≡ takes_lanes act count }
{
    match act {
        Act::Opens { film: _, count: _ } => true,
        Act::Changes { count: to } => count < to,
        Act::Closes => false,
        Act::Doors { held: _ } => false,
    }
}

// The first time from another on that a title's rules permit for an event: an opening may come at any time.
pub fn allowed_from(t: Title, act: Act, from: u64) -> u64
    requires t_value { (title_ok t ≡ true) × (t.mode ≡ absent_mode → ⊥) }
    requires from_le_event_time_max { from ≤ event_time_max }
    ensures { Found (allows t act) from (2 ^ 43) result }
{
    match act {
        Act::Opens { film: _, count: _ } => from,
        Act::Changes { count } => permitted_from(t, t.count.min(count), from),
        Act::Closes => turn_from(t, t.film.floor, from),
        Act::Doors { held: _ } => turn_from(t, t.count, from),
    }
}

// Whether an answer is one that a later time may mend.
#[tactic(auto, using(std::proofs::lemmas::Bool::Decides::nat_tests))]
pub fn is_mended(answer: u8) -> bool
    ensures { result ≡ is_mended answer }
{
    matches!(
        answer,
        DONE | SECOND_EVENT | TOO_SOON | NOT_AT_SLOT | NO_LANES
    )
}

// An event is refused at a time that the clock has.
fn is_refused(s: State, e: Event, time: u64) -> bool
    ensures { result ≡ both (leb time event_time_max) (not (is_accepted_at s e time)) }
{
    time <= EVENT_TIME_MAX && call(s, event_at(e.title, time, e.act)).answer != DONE
}

// The next time at which an event that is refused at a time may be accepted.
fn next_try(s: State, e: Event, time: u64) -> u64
    requires { time ≤ event_time_max }
    ensures { Skips s e time result }
{
    let id = e.title;
    let act = e.act;
    let now = event_at(id, time, act);
    let answer = call(s, now).answer;
    if is_mended(answer) {
        return start_from(s, now).max(room_from(s, now));
    }
    if answer == TOO_EARLY {
        return s.last.min(PAST);
    }
    if answer == ID_TAKEN {
        return id_free_from(s, id, time);
    }
    PAST
}

// The first time from its own on at which an event is accepted, PAST where the clock has none.
pub fn accepted_from(s: State, e: Event) -> u64
    ensures { result ≡ first_accepted s e }
{
    let mut time = e.time;
    while is_refused(s, e, time) {
        time = next_try(s, e, time).max(time + 1);
    }
    time
}
