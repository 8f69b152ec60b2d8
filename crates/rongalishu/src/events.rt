// A fresh agent, the six events, and a notice taken, on an agent's row. An event leaves the row's sequence as it was: only a
// notice that is taken moves it.

ghost use Rattle.std.specs.Prelude.{◌≡◌};
ghost use Rattle.story.specs.declared.Act.TheVariants.{Changes, Closes};
ghost use Rattle.story.specs.Story.{event as event_at, opens, skips, holds, lifts};
ghost use Rattle.notice.specs.Decode.{read_of};
ghost use Rattle.row_calls.specs.Answers.{row_event, row_after_event, row_fresh, row_after_fresh, row_notice, row_after_notice};

use row_calls::events::event;
use scheduler::{event_at, opening};
use scheme::{PADDED, STEADY};
use story::Act;

// A fresh agent of a pool, whatever the row held.
pub fn rl_fresh_row(agent: &mut [u64], pool: u64) -> u8
    ensures { (result ≡ row_fresh agent.old pool) × (agent.new ≡ row_after_fresh agent.old pool) }
{
    row_calls::starting::fresh(agent, pool)
}

// One notice's bytes, and nothing after them, handed to the agent.
pub fn rl_take_row(agent: &mut [u64], bytes: &[u8]) -> u8
    ensures { (result ≡ row_notice agent.old (read_of bytes.now))
        × (agent.new ≡ row_after_notice agent.old (read_of bytes.now)) }
{
    row_calls::notices::take(agent, bytes)
}

// Opens a title on the padded grid.
pub fn rl_open_row(
    agent: &mut [u64],
    id: u64,
    time: u64,
    length: u64,
    floor: u64,
    cap: u64,
    count: u64,
) -> u8
    ensures value { result ≡ row_event agent.old (event_at id time (opens length floor cap count)) }
    ensures agent_after { agent.new ≡ row_after_event agent.old (event_at id time (opens length floor cap count)) }
{
    event(
        agent,
        event_at(id, time, opening(PADDED, length, floor, cap, count)),
    )
}

// Opens a skip-forward title.
pub fn rl_skip_row(agent: &mut [u64], id: u64, time: u64, length: u64, count: u64) -> u8
    ensures value { result ≡ row_event agent.old (event_at id time (skips length count)) }
    ensures agent_after { agent.new ≡ row_after_event agent.old (event_at id time (skips length count)) }
{
    event(
        agent,
        event_at(id, time, opening(STEADY, length, count, count, count)),
    )
}

// Changes the count of a title.
pub fn rl_change_row(agent: &mut [u64], id: u64, time: u64, count: u64) -> u8
    ensures value { result ≡ row_event agent.old (event_at id time (Changes count)) }
    ensures agent_after { agent.new ≡ row_after_event agent.old (event_at id time (Changes count)) }
{
    event(agent, event_at(id, time, Act::Changes { count: count }))
}

// Closes a title.
pub fn rl_close_row(agent: &mut [u64], id: u64, time: u64) -> u8
    ensures value { result ≡ row_event agent.old (event_at id time Closes) }
    ensures agent_after { agent.new ≡ row_after_event agent.old (event_at id time Closes) }
{
    event(agent, event_at(id, time, Act::Closes))
}

// Holds the doors of a title.
pub fn rl_hold_row(agent: &mut [u64], id: u64, time: u64) -> u8
    ensures value { result ≡ row_event agent.old (event_at id time holds) }
    ensures agent_after { agent.new ≡ row_after_event agent.old (event_at id time holds) }
{
    event(agent, event_at(id, time, Act::Doors { held: true }))
}

// Lifts the hold.
pub fn rl_lift_row(agent: &mut [u64], id: u64, time: u64) -> u8
    ensures value { result ≡ row_event agent.old (event_at id time lifts) }
    ensures agent_after { agent.new ≡ row_after_event agent.old (event_at id time lifts) }
{
    event(agent, event_at(id, time, Act::Doors { held: false }))
}
