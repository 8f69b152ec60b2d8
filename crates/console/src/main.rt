// The operator's console: commands as lines on standard input, an answer for each on standard output. `help` lists them. It takes no
// argument.
#![tactic(auto)]

use agent::Agent;
use console_desk::{ANSWER_MAX, Answered};
use console_drawing::drawn::{put_drawn, switched};
use console_lines::lines::LONGEST_LINE;
use sessions::Session;
use streams::usage::count_is;
use text::page::Page;

// The pool that a session starts with.
const POOL: u64 = 8;

// Answers the line at hand: where there is none, an empty line asks nothing. Its event is drawn behind the answer, where events are.
fn answered(
    agent: Agent,
    drawing: bool,
    session: Session,
    input: &[u8],
    out: &mut [u8],
) -> Answered {
    let s = sessions::line(session, input);
    let mut line = console_desk::answer(agent, s, out, session.at);
    if drawing {
        let mut page = Page::from(out, line.at);
        put_drawn(&mut page, agent, s);
        line.at = page.end();
    }
    line
}

// Whether events are drawn after the line at hand: never but on a terminal.
fn draws_on(drawing: bool, session: Session, input: &[u8]) -> bool {
    if session.prompts {
        return switched(drawing, sessions::line(session, input));
    }
    false
}

// Goes on to the next line, or ends the session once what was answered is written.
fn go_on(rt: &HostRuntime, over: bool, session: Session, input: &mut [u8], out: &[u8]) -> Session {
    if over {
        return sessions::ended(rt, session, out);
    }
    sessions::turn(rt, session, input, out, LONGEST_LINE, ANSWER_MAX)
}

// Answers the lines of standard input until one of them or it ends, or a read or a write fails. A proved loop has to end, and nothing
// says that the input does: so the turns are counted up to a number that no run reaches.
fn answer_lines(rt: &HostRuntime) {
    let mut input = [0u8; 65_536];
    let mut out = [0u8; 65_536];
    let fresh = agent::fresh_agent(POOL);
    let mut agent = fresh.agent;
    let mut drawing = false;
    let mut session = sessions::begun(rt);
    for _ in 0..u64::MAX {
        if !session.more {
            break;
        }
        let line = answered(agent, drawing, session, &input, &mut out);
        agent = line.agent;
        drawing = draws_on(drawing, session, &input);
        session.at = line.at;
        session = go_on(rt, line.over, session, &mut input, &out);
    }
}

fn main(rt: HostRuntime) {
    if count_is(&rt, 1, b"console") {
        answer_lines(&rt);
    }
}
