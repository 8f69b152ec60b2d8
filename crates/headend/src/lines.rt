// The lines of standard input, answered. What they accept is in the journal and its sums, forced to disk, before any of their answers
// is written: that is done when the session is about to write, so that the lines of one block of input share one force.

use agent::Agent;
use console_desk::ANSWER_MAX;
use console_drawing::drawn::{put_drawn, switched};
use console_lines::lines::LONGEST_LINE;
use files::pages::within_row;
use headend_desk::{Answered, Desk, has_room};
use journal_files::appending::append;
use journal_files::pairs::Pair;
use journals::{BLOCK, BLOCK_EVENTS, SUM};
use notice::LONGEST_NOTICE;
use sessions::{Session, sought, turned, writes};
use text::page::Page;

// Room for the notices and the sums of a whole block of input.
const NOTICES_ROOM: usize = BLOCK_EVENTS * LONGEST_NOTICE;

const SUMS_ROOM: usize = BLOCK_EVENTS * SUM;

// A desk with nothing written in its rows.
fn clear(agent: Agent, at: usize) -> Desk {
    Desk {
        agent,
        at,
        noticed: 0,
        summed: 0,
    }
}

// The place behind what is drawn of a line: an event that was accepted, which moved the sequence.
fn drawn(before: Desk, after: Desk, s: &[u8], out: &mut [u8]) -> usize {
    let agent = before.agent;
    let mut page = Page::from(out, after.at);
    if agent.sequence < after.agent.sequence {
        put_drawn(&mut page, agent, s);
    }
    page.end()
}

// Answers the line at hand: where there is none, an empty line asks nothing. Its event is drawn behind the answer, where events are.
fn answered(
    desk: Desk,
    drawing: bool,
    session: Session,
    input: &[u8],
    out: &mut [u8],
    notices: &mut [u8],
    sums: &mut [u8],
) -> Answered {
    let s = sessions::line(session, input);
    let line = headend_desk::answer(desk, s, out, notices, sums);
    if drawing {
        let mut after = line.desk;
        let at = drawn(desk, after, s, out);
        after.at = at;
        return Answered {
            desk: after,
            over: line.over,
        };
    }
    line
}

// Whether the journal has to be written now: answers are about to be, or the next notice might not fit.
fn is_due(desk: Desk, session: Session, out: &[u8], notices: &[u8], sums: &[u8]) -> bool {
    !has_room(desk.noticed, notices.len(), desk.summed, sums.len())
        || writes(session, out, ANSWER_MAX)
}

// Writes what was accepted to the journal and its sums, and forces it.
fn keep(rt: &HostRuntime, pair: &Pair, desk: Desk, notices: &[u8], sums: &[u8]) -> bool {
    let n = within_row(desk.noticed, notices);
    let m = within_row(desk.summed, sums);
    append(rt, &pair.journal, &notices[..n], &pair.sums, &sums[..m])
}

// What one line leaves.
#[derive(Clone, Copy)]
struct Turn {
    desk: Desk,
    session: Session,
}

// The end of the session: a write or a force failed, and nothing that waits is answered.
fn ended(desk: Desk, session: Session) -> Turn {
    let mut over = session;
    over.more = false;
    Turn {
        desk,
        session: over,
    }
}

// The session goes on to the next line, writing out answers where it is about to.
fn go_on(rt: &HostRuntime, desk: Desk, session: Session, input: &mut [u8], out: &[u8]) -> Turn {
    let next = turned(rt, session, input, out, ANSWER_MAX);
    let mut d = desk;
    d.at = next.at;
    Turn {
        desk: d,
        session: next,
    }
}

// The same once what was accepted is kept.
fn keep_and_go_on(
    rt: &HostRuntime,
    pair: &Pair,
    desk: Desk,
    session: Session,
    input: &mut [u8],
    out: &[u8],
    notices: &[u8],
    sums: &[u8],
) -> Turn {
    if keep(rt, pair, desk, notices, sums) {
        let agent = desk.agent;
        return go_on(rt, clear(agent, desk.at), session, input, out);
    }
    ended(desk, session)
}

// The session ended by its last line, once what was accepted is kept and what was answered is written.
fn keep_and_end(
    rt: &HostRuntime,
    pair: &Pair,
    desk: Desk,
    session: Session,
    out: &[u8],
    notices: &[u8],
    sums: &[u8],
) -> Turn {
    if keep(rt, pair, desk, notices, sums) {
        return ended(desk, sessions::ended(rt, session, out));
    }
    ended(desk, session)
}

// Goes on from a line that was answered to the next, if there is to be one.
fn pass_on(
    rt: &HostRuntime,
    pair: &Pair,
    line: Answered,
    session: Session,
    input: &mut [u8],
    out: &[u8],
    notices: &[u8],
    sums: &[u8],
) -> Turn {
    let desk = line.desk;
    let mut s = session;
    s.at = desk.at;
    if line.over {
        return keep_and_end(rt, pair, desk, s, out, notices, sums);
    }
    let next = sought(s, input, LONGEST_LINE);
    if is_due(desk, next, out, notices, sums) {
        return keep_and_go_on(rt, pair, desk, next, input, out, notices, sums);
    }
    go_on(rt, desk, next, input, out)
}

// The rows are lent as arrays, whose lengths then need no proof.
fn answered_in(
    desk: Desk,
    drawing: bool,
    session: Session,
    input: &[u8; BLOCK],
    out: &mut [u8; BLOCK],
    notices: &mut [u8; NOTICES_ROOM],
    sums: &mut [u8; SUMS_ROOM],
) -> Answered {
    answered(desk, drawing, session, input, out, notices, sums)
}

// Whether events are drawn after the line at hand: never but on a terminal.
fn draws_on(drawing: bool, session: Session, input: &[u8; BLOCK]) -> bool {
    session.prompts && switched(drawing, sessions::line(session, input))
}

fn passed_on_in(
    rt: &HostRuntime,
    pair: &Pair,
    line: Answered,
    session: Session,
    input: &mut [u8; BLOCK],
    out: &[u8; BLOCK],
    notices: &[u8; NOTICES_ROOM],
    sums: &[u8; SUMS_ROOM],
) -> Turn {
    pass_on(rt, pair, line, session, input, out, notices, sums)
}

// Answers the lines until one of them or the input ends, or a read, a write or a force fails. A proved loop has to end, and nothing says
// that the input does: so the turns are counted, up to a number that no run uses up.
pub fn answer_lines(rt: &HostRuntime, pair: &Pair, first: Agent) {
    let mut input = [0u8; BLOCK];
    let mut out = [0u8; BLOCK];
    let mut notices = [0u8; NOTICES_ROOM];
    let mut sums = [0u8; SUMS_ROOM];
    let mut desk = clear(first, 0);
    let mut drawing = false;
    let mut session = sessions::begun(rt);
    for _ in 0..u64::MAX {
        if !session.more {
            break;
        }
        let line = answered_in(
            desk,
            drawing,
            session,
            &input,
            &mut out,
            &mut notices,
            &mut sums,
        );
        drawing = draws_on(drawing, session, &input);
        let turn = passed_on_in(rt, pair, line, session, &mut input, &out, &notices, &sums);
        desk = turn.desk;
        session = turn.session;
    }
}
