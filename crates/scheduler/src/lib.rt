// The scheduler's calls. No public function has a `requires`: any numbers and any state may be handed in, and each contract
// says what is answered. A refusal gives back the state as it came in, number for number, and writes nothing that is lent.
#![tactic(auto, unfolding(rules::specs::Refusals::first_hit, crate::specs::Outcomes::settled_answer, crate::specs::Outcomes::held_answer, crate::specs::Outcomes::held_shown, story::specs::Calls::lane_shows))]

ghost use Rattle.std.specs.Prelude.{◌≡◌, eqb};
ghost use Rattle.rules.specs.Refusals.{pick};
ghost use Rattle.story.specs.declared.Act.TheVariants.{Opens, Changes, Closes};
ghost use Rattle.story.specs.Story.{event, film_of, opens, skips, holds, lifts};
ghost use Rattle.story.specs.Calls.{blank_title, empty_pool, fresh_answer, fresh_next, lane_answer, lane_shows};
ghost use Rattle.story.specs.Runs.{answered, called};
ghost use Rattle.measures.specs.Readable.{AllReadable};
ghost use Rattle.scheduler.specs.Outcomes.{settled_answer, held_answer, held_shown};

use measures::lanes::lanes_held;
use measures::slots::{title_of, with_title};
use measures::ticks::tick_at;
use owed::sending::shows;
use owed::turning::next_title;
use questions::{asked_verdict, lane_verdict};
use rules::{
    COUNT_PLACES, DONE, LANE_PLACES, NO_LANES, OUTSIDE_LIMITS, POOL_MAX, POOL_MIN, TITLES_MAX,
    within,
};
use scheme::{PADDED, STEADY};
use story::{ABSENT, Act, CLEAR, Event, Film, State, Title};
use verdicts::events::{sets_count, verdict};

// kept: a customer's call gives back 01's number (docs/PROMISES.md, "Public calls"; `rongalishu_c`).
// What a fresh call gives back.
#[derive(Clone, Copy)]
pub struct Started {
    pub answer: u8,
    pub state: State,
}

// What an event gives back: the answer, and the next state or the one that came in.
#[derive(Clone, Copy)]
pub struct Outcome {
    pub answer: u8,
    pub state: State,
}

// What a lane question gives back: the answer, and the cell that goes out, 0 beside a refusal.
#[derive(Clone, Copy)]
pub struct Shown {
    pub answer: u8,
    pub cell: u64,
}

// What the question of lanes held gives back: the answer, and how many, 0 beside a refusal.
#[derive(Clone, Copy)]
pub struct HeldLanes {
    pub answer: u8,
    pub lanes: u64,
}

// The slot of an id that no event has named.
fn blank_title() -> Title
    ensures { result ≡ blank_title }
{
    let film = Film {
        kind: PADDED,
        length: 0,
        floor: 0,
        cap: 0,
    };
    Title {
        mode: ABSENT,
        film,
        opened: 0,
        count: 0,
        mark: CLEAR,
        last: 0,
        tuned: 0,
        ends: [0; COUNT_PLACES],
        dropped: [0; LANE_PLACES],
        owed: [0; LANE_PLACES],
    }
}

// A pool without titles.
fn empty_pool(lanes: u64) -> State
    ensures { result ≡ empty_pool lanes }
{
    let t = blank_title();
    let titles = [t; TITLES_MAX];
    State {
        pool: lanes,
        last: 0,
        titles,
    }
}

// A fresh pool. A refusal gives a pool of 0 lanes.
pub fn fresh(pool: u64) -> Started
    ensures { (result.answer ≡ fresh_answer pool) × (result.state ≡ fresh_next pool) }
{
    if within(POOL_MIN, POOL_MAX, pool) {
        let state = empty_pool(pool);
        return Started {
            answer: DONE,
            state,
        };
    }
    let none = empty_pool(0);
    Started {
        answer: OUTSIDE_LIMITS,
        state: none,
    }
}

// An event that only lanes may refuse: where it asks for them it is taken if the pool has as many as the next state would hold.
fn settle(s: State, next: State, time: u64, asks: bool) -> Outcome
    requires all_readable { AllReadable next }
    requires pool_value { next.pool ≡ s.pool }
    ensures { (result.answer ≡ settled_answer asks next time) × (result.state ≡ pick (eqb (settled_answer asks next time) 0) next s) }
{
    if asks && s.pool < lanes_held(next, time) {
        let kept = s;
        return Outcome {
            answer: NO_LANES,
            state: kept,
        };
    }
    Outcome {
        answer: DONE,
        state: next,
    }
}

// Puts an event to the scheduler.
pub fn call(s: State, e: Event) -> Outcome
    ensures { (result.answer ≡ answered s e) × (result.state ≡ called s e) }
{
    match verdict(s, e) {
        Ok(()) => {
            let turned = next_title(title_of(s, e.title), e.time, e.act);
            let next = with_title(s, e.title, turned, e.time);
            settle(s, next, e.time, sets_count(e.act))
        }
        Err(refusal) => Outcome {
            answer: refusal.number(),
            state: s,
        },
    }
}

// An event of a title at a time.
pub fn event_at(id: u64, time: u64, act: Act) -> Event
    ensures { result ≡ event id time act }
{
    Event {
        title: id,
        time,
        act,
    }
}

// An opening as a film of some kind, with a count.
pub fn opening(kind: u64, length: u64, floor: u64, cap: u64, count: u64) -> Act
    ensures { result ≡ Opens (film_of kind length floor cap) count }
{
    let film = Film {
        kind,
        length,
        floor,
        cap,
    };
    Act::Opens { film, count }
}

// Opens a title on the padded grid.
pub fn open(s: State, id: u64, time: u64, length: u64, floor: u64, cap: u64, count: u64) -> Outcome
    ensures { (result.answer ≡ answered s (event id time (opens length floor cap count))) × (result.state ≡ called s (event id time (opens length floor cap count))) }
{
    call(
        s,
        event_at(id, time, opening(PADDED, length, floor, cap, count)),
    )
}

// Opens a skip-forward title: its count is its floor and its cap.
pub fn skip(s: State, id: u64, time: u64, length: u64, count: u64) -> Outcome
    ensures { (result.answer ≡ answered s (event id time (skips length count))) × (result.state ≡ called s (event id time (skips length count))) }
{
    call(
        s,
        event_at(id, time, opening(STEADY, length, count, count, count)),
    )
}

// Changes the count of a title.
pub fn change(s: State, id: u64, time: u64, count: u64) -> Outcome
    ensures { (result.answer ≡ answered s (event id time (Changes count))) × (result.state ≡ called s (event id time (Changes count))) }
{
    call(s, event_at(id, time, Act::Changes { count }))
}

// Closes a title. It needs no lanes: a close only drops them.
pub fn close(s: State, id: u64, time: u64) -> Outcome
    ensures { (result.answer ≡ answered s (event id time Closes)) × (result.state ≡ called s (event id time Closes)) }
{
    call(s, event_at(id, time, Act::Closes))
}

// Holds the doors of a title: no box may begin from that moment on.
pub fn hold(s: State, id: u64, time: u64) -> Outcome
    ensures { (result.answer ≡ answered s (event id time holds)) × (result.state ≡ called s (event id time holds)) }
{
    call(s, event_at(id, time, Act::Doors { held: true }))
}

// Lifts the hold: boxes may begin again, at that very moment for the first.
pub fn lift(s: State, id: u64, time: u64) -> Outcome
    ensures { (result.answer ≡ answered s (event id time lifts)) × (result.state ≡ called s (event id time lifts)) }
{
    call(s, event_at(id, time, Act::Doors { held: false }))
}

// Which cell goes out on a lane of a title in the tick that holds a time.
pub fn lane(s: State, id: u64, lane: u64, time: u64) -> Shown
    ensures { (result.answer ≡ lane_answer s id lane time) × (result.cell ≡ lane_shows s id lane time) }
{
    match lane_verdict(s, id, lane, time) {
        Ok(()) => {
            let t = title_of(s, id);
            Shown {
                answer: DONE,
                cell: shows(t, lane, tick_at(t, time)),
            }
        }
        Err(refusal) => Shown {
            answer: refusal.number(),
            cell: 0,
        },
    }
}

// How many lanes are held over all titles at a time, no earlier than the last accepted event.
pub fn held(s: State, time: u64) -> HeldLanes
    ensures { (result.answer ≡ held_answer s time) × (result.lanes ≡ held_shown s time) }
{
    match asked_verdict(s, time, true) {
        Ok(()) => HeldLanes {
            answer: DONE,
            lanes: lanes_held(s, time),
        },
        Err(refusal) => HeldLanes {
            answer: refusal.number(),
            lanes: 0,
        },
    }
}
