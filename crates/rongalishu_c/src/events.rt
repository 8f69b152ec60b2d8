// A fresh agent, the six events, and a notice taken, on an agent's row. An event leaves the row's sequence as it was: only a
// notice that is taken moves it.

ghost use Rattle.std.specs.Prelude.{◌≡◌};
ghost use Rattle.story.specs.declared.Act.TheVariants.{Changes, Closes};
ghost use Rattle.story.specs.Story.{event as event_at, opens, skips, holds, lifts};
ghost use Rattle.notice.specs.Decode.{read_of};
ghost use Rattle.row_calls.specs.Answers.{row_event, row_after_event, row_fresh, row_after_fresh, row_notice, row_after_notice};

// A fresh agent of a pool, whatever the row held.
#[unsafe(no_mangle)]
pub extern "C" fn rl_fresh_row(agent: &mut [u64], pool: u64) -> u8
    ensures { (result ≡ row_fresh agent.old pool) × (agent.new ≡ row_after_fresh agent.old pool) }
{
    rongalishu::events::rl_fresh_row(agent, pool)
}

// One notice's bytes, and nothing after them, handed to the agent.
#[unsafe(no_mangle)]
pub extern "C" fn rl_take_row(agent: &mut [u64], bytes: &[u8]) -> u8
    ensures { (result ≡ row_notice agent.old (read_of bytes.now))
        × (agent.new ≡ row_after_notice agent.old (read_of bytes.now)) }
{
    rongalishu::events::rl_take_row(agent, bytes)
}

// Opens a title on the padded grid.
#[unsafe(no_mangle)]
pub extern "C" fn rl_open_row(
    agent: &mut [u64],
    id: u64,
    time: u64,
    length: u64,
    floor: u64,
    cap: u64,
    count: u64,
) -> u8
    ensures value { result ≡ row_event agent.old (event_at id time (opens length floor cap count)) }
    ensures agent_after { agent.new ≡ row_after_event agent.old (event_at id time (opens length floor cap count)) }
{
    rongalishu::events::rl_open_row(agent, id, time, length, floor, cap, count)
}

// Opens a skip-forward title.
#[unsafe(no_mangle)]
pub extern "C" fn rl_skip_row(agent: &mut [u64], id: u64, time: u64, length: u64, count: u64) -> u8
    ensures value { result ≡ row_event agent.old (event_at id time (skips length count)) }
    ensures agent_after { agent.new ≡ row_after_event agent.old (event_at id time (skips length count)) }
{
    rongalishu::events::rl_skip_row(agent, id, time, length, count)
}

// Changes the count of a title.
#[unsafe(no_mangle)]
pub extern "C" fn rl_change_row(agent: &mut [u64], id: u64, time: u64, count: u64) -> u8
    ensures value { result ≡ row_event agent.old (event_at id time (Changes count)) }
    ensures agent_after { agent.new ≡ row_after_event agent.old (event_at id time (Changes count)) }
{
    rongalishu::events::rl_change_row(agent, id, time, count)
}

// Closes a title.
#[unsafe(no_mangle)]
pub extern "C" fn rl_close_row(agent: &mut [u64], id: u64, time: u64) -> u8
    ensures value { result ≡ row_event agent.old (event_at id time Closes) }
    ensures agent_after { agent.new ≡ row_after_event agent.old (event_at id time Closes) }
{
    rongalishu::events::rl_close_row(agent, id, time)
}

// Holds the doors of a title.
#[unsafe(no_mangle)]
pub extern "C" fn rl_hold_row(agent: &mut [u64], id: u64, time: u64) -> u8
    ensures value { result ≡ row_event agent.old (event_at id time holds) }
    ensures agent_after { agent.new ≡ row_after_event agent.old (event_at id time holds) }
{
    rongalishu::events::rl_hold_row(agent, id, time)
}

// Lifts the hold.
#[unsafe(no_mangle)]
pub extern "C" fn rl_lift_row(agent: &mut [u64], id: u64, time: u64) -> u8
    ensures value { result ≡ row_event agent.old (event_at id time lifts) }
    ensures agent_after { agent.new ≡ row_after_event agent.old (event_at id time lifts) }
{
    rongalishu::events::rl_lift_row(agent, id, time)
}
