// What a line of the console does to the agent: a fresh one, an event put to its scheduler, a notice handed to it.
// `follow` answers as specs/Acts.antt defines it.

ghost use Rattle.std.specs.Prelude.{◌≡◌, ◌≤◌, length};
ghost use Rattle.story.specs.Runs.{answered};
ghost use Rattle.notice.specs.Decode.{read_of};
ghost use Rattle.agent.specs.Turns.{notice_answer, noticed};
ghost use Rattle.console_lines.specs.Lines.{longest};
ghost use Rattle.console_notices.specs.Hex.{hex_between};
ghost use Rattle.console_acts.specs.Events.{event_in};
ghost use Rattle.console_acts.specs.Acts.{after_event, answer_after, agent_acted};

use crate::events::event_in;
use agent::{Agent, Followed};
use console_commands::commands;
use console_lines::lines::Line;
use console_notices::hex;
use scheduler::call;

// The agent is handed what the digits spell.
fn taken(agent: Agent, s: &[u8], from: u64, to: u64) -> Followed
    requires { length s.now ≤ longest }
    ensures { (result.answer ≡ notice_answer agent
        (read_of (hex_between s.now from to))) × (result.agent ≡ noticed agent
        (read_of (hex_between s.now from to))) }
{
    let mut room = hex::blank_room();
    let n = hex::spell(s, from, to, &mut room);
    agent::take(agent, &room[..n])
}

// An event acts on the agent's scheduler and leaves its sequence alone.
fn event(agent: Agent, line: Line) -> Followed
    ensures { (result.answer ≡ answered agent.state (event_in line)) × (result.agent ≡ after_event agent line) }
{
    let state = agent.state;
    let outcome = call(state, event_in(line));
    let next = outcome.state;
    let after = Agent {
        sequence: agent.sequence,
        state: next,
    };
    Followed {
        answer: outcome.answer,
        agent: after,
    }
}

// What a line that may change the agent is answered, and the agent after it. The line's bytes are those it was read
// from.
pub fn follow(agent: Agent, line: Line, s: &[u8]) -> Followed
    requires { length s.now ≤ longest }
    ensures { (result.answer ≡ answer_after agent line s.now) × (result.agent ≡ agent_acted agent line
        s.now) }
{
    let command = line.command;
    let n = line.numbers;
    if command == commands::FRESH {
        return agent::fresh_agent(n[0]);
    }
    if command == commands::NOTICE {
        return taken(agent, s, n[0], n[1]);
    }
    event(agent, line)
}
