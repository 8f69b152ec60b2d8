// The head-end's desk: one line, answered over an agent. `answer` takes the desk, the line's bytes and three lent rows: for answers,
// for notices and for their sums. It gives back the desk after the line, as specs/Desk.antt defines it. It has no `requires`: any desk and
// any bytes have an answer, and nothing goes past a row's end. What the notices of a run of lines come to is specs/Journal.antt.
#![tactic(auto)]

ghost use Rattle.std.specs.Prelude.{◌≡◌, ◌≤◌, length};
ghost use Rattle.text.specs.Pages.{Puts};
ghost use Rattle.notice.specs.Encode.{bytes_of};
ghost use Rattle.console_lines.specs.Lines.{longest, meaning};
ghost use Rattle.console_acts.specs.Events.{event_in};
ghost use Rattle.console_desk.specs.Desk.{is_last};
ghost use Rattle.headend_desk.specs.Desk.{
  is_apart,
  is_event_of,
  head_answer,
  head_next,
  head_told,
  answer_line,
  event_text,
  sum_text,
  event_notice,
  event_sum,
  other_text,
  head_after,
  head_text,
  head_notice,
  head_sum,
  Replies,
  room_left,
};

use agent::{Agent, Followed};
use console_acts::events::event_in;
use console_acts::named;
use console_acts::writing::notice_with;
use console_answers::entries;
use console_commands::commands;
use console_desk::{behind, ends, put_fault_line, put_followed, reply};
use console_lines::lines;
use console_lines::lines::Line;
use notice::{LONGEST_NOTICE, Notice};
use notice_fields::numbers;
use rules::{DONE, OUT_OF_TURN};
use scheduler::call;
use story::Event;
use sums::sum;
use text::bytes;
use text::bytes::Sort;
use text::page::Page;

// The bytes of a sum.
pub const SUM_BYTES: usize = sums::SIZE;

// No notice has a larger sequence.
const LAST_SEQUENCE: u32 = 4_294_967_295;

// The agent, and the places behind what is written in the rows of answers, notices and sums.
#[derive(Clone, Copy)]
pub struct Desk {
    pub agent: Agent,
    pub at: usize,
    pub noticed: usize,
    pub summed: usize,
}

// What a line leaves: the desk, and whether the session is over.
#[derive(Clone, Copy)]
pub struct Answered {
    pub desk: Desk,
    pub over: bool,
}

// Whether the head-end does not know a command's word.
fn is_apart(command: u8) -> bool
    ensures { result ≡ is_apart command }
{
    matches!(command, commands::FRESH | commands::NOTICE)
}

// Whether a line says an event.
fn is_event(line: Line) -> bool
    ensures { result ≡ is_event_of line }
{
    line.fault == commands::NO_FAULT
        && rules::within(
            commands::OPEN as u64,
            commands::SKIP as u64,
            line.command as u64,
        )
}

// An event, put to the agent's scheduler: accepted it takes the next sequence.
fn take(agent: Agent, e: Event) -> Followed
    ensures { (result.answer ≡ head_answer agent e) × (result.agent ≡ head_next agent e) }
{
    let state = agent.state;
    let last = agent.sequence;
    let outcome = call(state, e);
    let answer = outcome.answer;
    if answer == DONE {
        if last < LAST_SEQUENCE {
            let next = outcome.state;
            let after = Agent {
                sequence: last + 1,
                state: next,
            };
            return Followed {
                answer: DONE,
                agent: after,
            };
        }
        return Followed {
            answer: OUT_OF_TURN,
            agent,
        };
    }
    Followed { answer, agent }
}

// What an event is answered: lanes held and sequence, or its refusal.
fn put_taken(page: &mut Page<'_>, answer: u8, after: Agent, named: u64)
    ensures { Puts page.old (head_told answer after named) page.new }
{
    put_followed(page, answer, after, named);
    if answer == DONE {
        entries::put_entry(page, after.sequence as u64);
    }
}

// The line that answers an event of an agent: by its number and the agent after it.
fn put_event(page: &mut Page<'_>, answer: u8, after: Agent, agent: Agent, line: Line, s: &[u8])
    requires { length s.now ≤ longest }
    ensures { Puts page.old (answer_line answer after agent line s.now) page.new }
{
    put_taken(page, answer, after, named::by_line(answer, agent, line, s));
    behind::put_behind(page, answer, agent, line, s);
    page.put(b"\n");
}

// The sum of a notice's bytes.
fn put_sum(sums: &mut Page<'_>, bytes: &[u8])
    ensures { Puts sums.old (sum_text bytes.now) sums.new }
{
    let total = sum(bytes);
    let mut four = [0u8; SUM_BYTES];
    numbers::put(&mut four, 0, SUM_BYTES, total as u64);
    sums.put(&four);
}

// A notice's bytes, and their sum.
fn keep(n: Notice, notices: &mut Page<'_>, sums: &mut Page<'_>)
    ensures noticed { Puts notices.old (bytes_of n) notices.new }
    ensures summed { Puts sums.old (sum_text (bytes_of n)) sums.new }
{
    let mut room = [0u8; LONGEST_NOTICE];
    notice::write(n, &mut room);
    let size = notice::size(n);
    notices.put(&room[..size]);
    put_sum(sums, &room[..size]);
}

// Any other line: a word that is unknown here, or what the console answers.
fn put_other(page: &mut Page<'_>, agent: Agent, line: Line, s: &[u8])
    requires { line ≡ meaning s.now }
    ensures { Puts page.old (other_text agent s.now) page.new }
{
    if is_apart(line.command) {
        let place = bytes::run_end(s, 0, Sort::Separator);
        put_fault_line(page, commands::UNKNOWN_WORD, place, commands::NONE);
    } else {
        reply(page, agent, line, s);
    }
}

// A line that says an event: the agent after it.
fn act(
    page: &mut Page<'_>,
    agent: Agent,
    line: Line,
    s: &[u8],
    notices: &mut Page<'_>,
    sums: &mut Page<'_>,
) -> Agent
    requires { length s.now ≤ longest }
    ensures agent { result ≡ head_next agent (event_in line) }
    ensures answered { Puts page.old (event_text agent line s.now) page.new }
    ensures noticed { Puts notices.old (event_notice agent (event_in line)) notices.new }
    ensures summed { Puts sums.old (event_sum agent (event_in line)) sums.new }
{
    let e = event_in(line);
    let taken = take(agent, e);
    let after = taken.agent;
    let told = taken.answer;
    put_event(page, told, after, agent, line, s);
    if told == DONE {
        keep(notice_with(after.sequence, e), notices, sums);
    }
    after
}

// Replies to one line that has been read: the agent after it.
fn turn(
    page: &mut Page<'_>,
    agent: Agent,
    line: Line,
    s: &[u8],
    notices: &mut Page<'_>,
    sums: &mut Page<'_>,
) -> Agent
    requires { line ≡ meaning s.now }
    ensures agent { result ≡ head_after agent s.now }
    ensures answered { Puts page.old (head_text agent s.now) page.new }
    ensures noticed { Puts notices.old (head_notice agent s.now) notices.new }
    ensures summed { Puts sums.old (head_sum agent s.now) sums.new }
{
    if is_event(line) {
        return act(page, agent, line, s, notices, sums);
    }
    put_other(page, agent, line, s);
    agent
}

// Answers one line, given without its newline.
pub fn answer(desk: Desk, s: &[u8], out: &mut [u8], notices: &mut [u8], sums: &mut [u8]) -> Answered
    ensures { (Replies desk s.now out.old notices.old sums.old result.desk
        out.new notices.new sums.new)
        × (result.over ≡ is_last (meaning s.now)) }
{
    let line = lines::parse(s);
    let over = ends(line);
    let mut page = Page::from(out, desk.at);
    let mut noticed = Page::from(notices, desk.noticed);
    let mut summed = Page::from(sums, desk.summed);
    let agent = turn(&mut page, desk.agent, line, s, &mut noticed, &mut summed);
    let after = Desk {
        agent,
        at: page.end(),
        noticed: noticed.end(),
        summed: summed.end(),
    };
    Answered { desk: after, over }
}

// Whether the notice and the sum of any line fit behind the places of two rows of so many bytes.
pub fn has_room(noticed: usize, notices: usize, summed: usize, sums: usize) -> bool
    ensures { result ≡ room_left noticed notices summed sums }
{
    if notices < noticed {
        return false;
    }
    if sums < summed {
        return false;
    }
    if notices - noticed < LONGEST_NOTICE {
        return false;
    }
    SUM_BYTES <= sums - summed
}
