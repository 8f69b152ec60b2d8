// Behind which lines a picture stands, and how `draw` switches it.

ghost use Rattle.std.specs.Prelude.{◌≡◌, ◌≤◌, length};
ghost use Rattle.text.specs.Pages.{Puts};
ghost use Rattle.console_lines.specs.Lines.{longest, meaning};
ghost use Rattle.console_drawing.specs.Drawn.{
  says_event,
  title_read,
  title_in,
  event_drawn,
  drawn_behind,
  draws_after,
};

use crate::pictures::put_picture;
use agent::Agent;
use console_acts::acts::follow;
use console_commands::commands;
use console_lines::lines;
use console_lines::lines::Line;
use console_notices::hex;
use notice::Reading;
use rules::{DONE, within};
use text::page::Page;

// Whether a command is that of an event: its own word, or notice.
#[tactic(auto, unfolding(crate::specs::Drawn::says_event))]
fn says_event(command: u8) -> bool
    ensures { result ≡ says_event command }
{
    command == commands::NOTICE
        || within(commands::OPEN as u64, commands::SKIP as u64, command as u64)
}

// The id of a notice, where the bytes are one.
fn title_read(reading: Reading) -> u64
    ensures { result ≡ title_read reading }
{
    match reading {
        Reading::Whole(n) => n.title as u64,
        Reading::Malformed => 0,
    }
}

// The id that an event names.
fn title_in(line: Line, s: &[u8]) -> u64
    requires { length s.now ≤ longest }
    ensures { result ≡ title_in line s.now }
{
    let command = line.command;
    let n = line.numbers;
    if command == commands::NOTICE {
        return title_read(hex::reading(s, n[0], n[1]));
    }
    n[0]
}

// Behind a line that says an event: its title in the state after it, where the agent accepts it.
fn put_event(page: &mut Page<'_>, agent: Agent, line: Line, s: &[u8])
    requires { length s.now ≤ longest }
    ensures { Puts page.old (event_drawn agent line s.now) page.new }
{
    let f = follow(agent, line, s);
    let answer = f.answer;
    if answer == DONE {
        let state = f.agent.state;
        put_picture(page, state, title_in(line, s));
    }
}

// Behind any line, given without its newline and with the agent before it.
pub fn put_drawn(page: &mut Page<'_>, agent: Agent, s: &[u8])
    ensures { Puts page.old (drawn_behind agent s.now) page.new }
{
    let line = lines::parse(s);
    if line.fault == commands::NO_FAULT && says_event(line.command) {
        put_event(page, agent, line, s);
    }
}

// Whether events are drawn after a line, by whether they were before it.
pub fn switched(on: bool, s: &[u8]) -> bool
    ensures { result ≡ draws_after on (meaning s.now) }
{
    let line = lines::parse(s);
    if line.fault == commands::NO_FAULT && line.command == commands::DRAW {
        return !on;
    }
    on
}
