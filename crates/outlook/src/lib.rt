// What an operator would type next, of any state and any event, if nobody else acts: when the event is accepted, when its title's
// rules permit it, when it has room, when an id comes free, and what became of a title. Times are reached by jumps, from slot start to
// slot start and from release to release, as the planner reaches them.
//
// No public function has a `requires`: any numbers and any state may be handed in, and each contract says what is given back. No state
// is changed. `moments::PAST` stands for every time past the clock.
#![tactic(auto)]

mod trying;

ghost use Rattle.std.specs.Prelude.{◌≡◌};
ghost use Rattle.outlook.specs.Outlook.{when_answer, when_time, next_start, free_lanes, room_from, id_free_from, presence_of};

use crate::trying::{accepted_from, allowed_from, is_mended, takes_lanes};
use limits::state_ok;
use measures::lanes::{is_there, lanes_held};
use measures::slots::{title_of, with_title};
use measures::ticks::since;
use moments::PAST;
use moments::releases::{free_from, gone_from};
use owed::turning::next_title;
use rules::{DONE, EVENT_TIME_MAX, ID_MAX, PAST_CLOCK};
use scheduler::{call, event_at};
use story::{ABSENT, Event, OPEN, State};
use verdicts::events::{event_ok, verdict};

// What became of an id's title by a time: it was never opened, it has gone, or it is open or still sends.
pub const NEVER_OPENED: u8 = 0;

pub const GONE: u8 = 1;

pub const PRESENT: u8 = 2;

// What the question of an event's first accepted time gives back: the answer, and the time, 0 beside a refusal.
#[derive(Clone, Copy)]
pub struct Moment {
    pub answer: u8,
    pub time: u64,
}

// What became of an id's title by a time; never opened where the state or the id is outside its limits.
pub fn presence(s: State, id: u64, time: u64) -> u8
    ensures { result ≡ presence_of s id time }
{
    if state_ok(s) && id <= ID_MAX {
        let t = title_of(s, id);
        if t.mode == ABSENT {
            return NEVER_OPENED;
        }
        if is_there(t, time) {
            return PRESENT;
        }
        return GONE;
    }
    NEVER_OPENED
}

// How many lanes of the pool are not held at a time; 0 where the state is outside its limits.
pub fn free_lanes(s: State, time: u64) -> u64
    ensures { result ≡ free_lanes s time }
{
    if state_ok(s) {
        return since(lanes_held(s, time), s.pool);
    }
    0
}

// The earliest time from an event's own on at which its title's rules permit it, so that none of 7, 16 and 8 hits; PAST where the
// clock has none, 0 where the state, the id or the time is outside its limits or the id was never opened.
pub fn start_from(s: State, e: Event) -> u64
    ensures { result ≡ next_start s e }
{
    let id = e.title;
    let time = e.time;
    let act = e.act;
    if event_ok(s, id, time) {
        let t = title_of(s, id);
        if t.mode == ABSENT {
            return 0;
        }
        return allowed_from(t, act, time).min(PAST);
    }
    0
}

// The earliest time from an event's own on at which it has room: 9 does not hit an opening or a raise then, and other events take no
// lanes. PAST where the clock has none, 0 where another refusal than 9 hits the event.
pub fn room_from(s: State, e: Event) -> u64
    ensures { result ≡ room_from s e }
{
    let Ok(()) = verdict(s, e) else {
        return 0;
    };
    let id = e.title;
    let time = e.time;
    let act = e.act;
    let t = title_of(s, id);
    if takes_lanes(act, t.count) {
        // it would hold the same lanes whenever it comes
        return free_from(with_title(s, id, next_title(t, time, act), time), time);
    }
    time
}

// The earliest time from another on at which an id may open; PAST where the clock has none, as while its title is open, 0 where the
// state, the id or the time is outside its limits.
pub fn id_free_from(s: State, id: u64, time: u64) -> u64
    ensures { result ≡ id_free_from s id time }
{
    if event_ok(s, id, time) {
        let t = title_of(s, id);
        if t.mode == OPEN {
            return PAST;
        }
        if t.mode == ABSENT {
            return time;
        }
        return gone_from(t, time);
    }
    0
}

// The earliest time from an event's own on at which it is accepted. Where the clock has none: what it is answered at its time or at that
// of the last event, whichever is later, or 18 where that is a refusal which a later time may mend.
pub fn when(s: State, e: Event) -> Moment
    ensures { (result.answer ≡ when_answer s e) × (result.time ≡ when_time s e) }
{
    let time = accepted_from(s, e);
    if time <= EVENT_TIME_MAX {
        return Moment { answer: DONE, time };
    }
    let id = e.title;
    let act = e.act;
    let late = event_at(id, e.time.max(s.last), act);
    let answer = call(s, late).answer;
    if is_mended(answer) {
        return Moment {
            answer: PAST_CLOCK,
            time: 0,
        };
    }
    Moment { answer, time: 0 }
}
