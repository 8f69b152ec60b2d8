// The agent that follows a head-end in each set-top box: a scheduler that takes notices, each in its turn.
// No public function has a `requires`: any bytes have an answer, and a refusal gives back the agent as it came in.
#![tactic(auto)]

ghost use Rattle.std.specs.Prelude.{◌≡◌};
ghost use Rattle.notice.specs.declared.Reading.TheVariants as reading;
ghost use Rattle.notice.specs.Decode.{read_of};
ghost use Rattle.story.specs.Calls.{fresh_answer};
ghost use Rattle.story.specs.Runs.{answered, called};
ghost use Rattle.agent.specs.Turns.{act_of, event_of, fresh_agent, notice_answer, noticed};

use notice::{Kind, Notice, Reading};
use rules::{DONE, MALFORMED, OUT_OF_TURN};
use scheduler::{Outcome, call, event_at, opening};
use scheme::{PADDED, STEADY};
use story::{Act, Event, State};

#[derive(Clone, Copy)]
pub struct Agent {
    // the sequence of the last notice that it accepted, 0 when fresh
    pub sequence: u32,
    pub state: State,
}

// What a call gives back: the answer, and the agent after it.
#[derive(Clone, Copy)]
pub struct Followed {
    pub answer: u8,
    pub agent: Agent,
}

// A fresh agent of a pool. A refusal gives one with a pool of 0 lanes.
pub fn fresh_agent(pool: u64) -> Followed
    ensures { (result.answer ≡ fresh_answer pool) × (result.agent ≡ fresh_agent pool) }
{
    let started = scheduler::fresh(pool);
    Followed {
        answer: started.answer,
        agent: Agent {
            sequence: 0,
            state: started.state,
        },
    }
}

// What a notice's kind does.
fn act_of(kind: Kind) -> Act
    ensures { result ≡ act_of kind }
{
    match kind {
        Kind::Open {
            length,
            floor,
            cap,
            count,
        } => opening(
            PADDED,
            length as u64,
            floor as u64,
            cap as u64,
            count as u64,
        ),
        Kind::Change { count } => Act::Changes {
            count: count as u64,
        },
        Kind::Close => Act::Closes,
        Kind::Hold => Act::Doors { held: true },
        Kind::Lift => Act::Doors { held: false },
        Kind::Skip { length, count } => opening(
            STEADY,
            length as u64,
            count as u64,
            count as u64,
            count as u64,
        ),
    }
}

// The event that a notice carries.
pub fn event_of(n: Notice) -> Event
    ensures { result ≡ event_of n }
{
    let kind = n.kind;
    event_at(n.title as u64, n.time, act_of(kind))
}

// The event of a notice, put to the scheduler whether or not it is the notice's turn.
pub fn enact(s: State, n: Notice) -> Outcome
    ensures { (result.answer ≡ answered s (event_of n)) × (result.state ≡ called s (event_of n)) }
{
    call(s, event_of(n))
}

// A notice in its turn is its event; any other changes nothing.
pub fn heed(agent: Agent, n: Notice) -> Followed
    ensures { (result.answer ≡ notice_answer agent (reading.Whole n)) × (result.agent ≡ noticed agent (reading.Whole n)) }
{
    let last = agent.sequence;
    if n.sequence as u64 != last as u64 + 1 {
        return Followed {
            answer: OUT_OF_TURN,
            agent,
        };
    }
    let outcome = enact(agent.state, n);
    let answer = outcome.answer;
    if answer == DONE {
        let next = Agent {
            sequence: n.sequence,
            state: outcome.state,
        };
        return Followed {
            answer,
            agent: next,
        };
    }
    Followed { answer, agent }
}

// One notice's bytes, and nothing after them.
pub fn take(agent: Agent, bytes: &[u8]) -> Followed
    ensures { (result.answer ≡ notice_answer agent (read_of bytes.now)) × (result.agent ≡ noticed agent (read_of bytes.now)) }
{
    let read = notice::read(bytes);
    match read {
        Reading::Whole(n) => heed(agent, n),
        Reading::Malformed => Followed {
            answer: MALFORMED,
            agent,
        },
    }
}
