// The operator's desk: one line of the console, answered over an agent. `answer` takes the agent, the line's bytes, a
// lent row and a place in it, and gives back the agent after the line and the place behind its answer, as
// specs/Desk.antt defines them. It has no `requires`: any agent and any bytes have an answer, and no answer goes past
// the row's end. `reply`, which answers on a page, `ends`, `put_followed` and `put_fault_line` are for the head-end's desk,
// which reads lines alike, and so is `behind`, what stands behind the refusal of a line that would change the agent.
#![tactic(auto)]

mod asks;
pub mod behind;
mod telling;
mod viewing;
mod whens;

ghost use Rattle.std.specs.Prelude.{◌≡◌, ◌≤◌, length};
ghost use Rattle.text.specs.Pages.{Puts};
ghost use Rattle.console_lines.specs.Lines.{longest, meaning};
ghost use Rattle.console_acts.specs.Acts.{agent_acted};
ghost use Rattle.console_desk.specs.Desk.{
  is_silent,
  may_change,
  followed_text,
  told_text,
  act_text,
  Left,
  after_whole,
  whole_text,
  fault_line,
  after_line,
  line_text,
  is_last,
};

use crate::asks::ask;
use agent::Agent;
use console_acts::{acts, named};
use console_answers::{faults, outcomes};
use console_commands::commands;
use console_lines::lines;
use console_lines::lines::Line;
use text::page::Page;

// A number of a plan has 16 bits: a blank, and five digits at most.
const NUMBER_BYTES: usize = 6;

// No answer is longer: the longest is a plan's, with its 0 and its newline.
pub const ANSWER_MAX: usize = 2 + NUMBER_BYTES * commands::PLACES_MOST;

// What a line leaves: the agent, the place behind what was answered, and whether the session is over.
#[derive(Clone, Copy)]
pub struct Answered {
    pub agent: Agent,
    pub at: usize,
    pub over: bool,
}

// Whether a command has no answer.
fn is_silent(command: u8) -> bool
    ensures { result ≡ is_silent command }
{
    matches!(command, commands::NONE | commands::QUIT)
}

// Whether a command may change the agent.
#[tactic(auto, unfolding(crate::specs::Desk::may_change))]
fn may_change(command: u8) -> bool
    ensures { result ≡ may_change command }
{
    command == commands::NOTICE
        || rules::within(
            commands::FRESH as u64,
            commands::SKIP as u64,
            command as u64,
        )
}

// What an event or a notice was answered, and the lanes held at the time of the last that was accepted.
pub fn put_followed(page: &mut Page<'_>, answer: u8, agent: Agent, named: u64)
    ensures { Puts page.old (followed_text answer agent named) page.new }
{
    let state = agent.state;
    let time = state.last;
    let held = scheduler::held(state, time).lanes;
    outcomes::put_value(page, answer, held, named);
}

// What is said of a command that may change the agent, by its answer and the agent after it.
fn put_told(page: &mut Page<'_>, answer: u8, next: Agent, agent: Agent, line: Line, s: &[u8])
    requires { length s.now ≤ longest }
    ensures { Puts page.old (told_text answer next agent line s.now) page.new }
{
    let command = line.command;
    if command == commands::FRESH {
        outcomes::put_done(page, answer, 0);
    } else {
        put_followed(page, answer, next, named::by_line(answer, agent, line, s));
    }
}

// A command that may change the agent: the agent after it.
fn act(page: &mut Page<'_>, agent: Agent, line: Line, s: &[u8]) -> Agent
    requires { length s.now ≤ longest }
    ensures agent { result ≡ agent_acted agent line s.now }
    ensures written { Puts page.old (act_text agent line s.now) page.new }
{
    let f = acts::follow(agent, line, s);
    let next = f.agent;
    let answer = f.answer;
    put_told(page, answer, next, agent, line, s);
    behind::put_behind(page, answer, agent, line, s);
    next
}

// A line with nothing wrong: the agent after it.
fn whole(page: &mut Page<'_>, agent: Agent, line: Line, s: &[u8]) -> Agent
    requires { length s.now ≤ longest }
    ensures agent { result ≡ after_whole agent line s.now }
    ensures written { Puts page.old (whole_text agent line s.now) page.new }
{
    let command = line.command;
    if is_silent(command) {
        return agent;
    }
    if may_change(command) {
        let next = act(page, agent, line, s);
        page.put(b"\n");
        return next;
    }
    ask(page, agent.state, line, s);
    page.put(b"\n");
    agent
}

// What is wrong with a line of a command, and its newline.
pub fn put_fault_line(page: &mut Page<'_>, fault: u8, place: usize, command: u8)
    ensures { Puts page.old (fault_line fault place command) page.new }
{
    faults::put_fault(page, fault, place, command);
    page.put(b"\n");
}

// Answers one line that has been read: the agent after it.
pub fn reply(page: &mut Page<'_>, agent: Agent, line: Line, s: &[u8]) -> Agent
    requires { line ≡ meaning s.now }
    ensures agent { result ≡ after_line agent s.now }
    ensures written { Puts page.old (line_text agent s.now) page.new }
{
    let fault = line.fault;
    if fault == commands::NO_FAULT {
        return whole(page, agent, line, s);
    }
    put_fault_line(page, fault, line.place, line.command);
    agent
}

// Whether the session is over after a line that has been read.
#[tactic(auto, unfolding(crate::specs::Desk::is_last))]
pub fn ends(line: Line) -> bool
    ensures { result ≡ is_last line }
{
    line.fault == commands::NO_FAULT && line.command == commands::QUIT
}

// Answers one line, given without its newline.
pub fn answer(agent: Agent, s: &[u8], out: &mut [u8], at: usize) -> Answered
    ensures { (Left (after_line agent s.now) out.old at
        (line_text agent s.now) result.agent out.new result.at)
        × (result.over ≡ is_last (meaning s.now)) }
{
    let line = lines::parse(s);
    let over = ends(line);
    let mut page = Page::from(out, at);
    let after = reply(&mut page, agent, line, s);
    Answered {
        agent: after,
        at: page.end(),
        over,
    }
}
