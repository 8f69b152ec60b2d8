// A session of lines from standard input, answered to standard output: which line is next, and the row in which answers
// wait to be written. Input is read as it comes, in blocks; what was answered is written out before each read, so that on
// a terminal an answer appears as its line is entered, and a file costs few system calls. Where both are a terminal a prompt
// stands before each line that is waited for. A read or a write that fails is said on standard error and ends the session. No
// contract can say what is read and written.
#![tactic(auto)]

use std::io::IsTerminal;
use streams::{Filled, refill};
use text::bytes::Sort;
use text::{bytes, feed};

// Where a session stands between two lines.
#[derive(Clone, Copy)]
pub struct Session {
    // whether a line is at hand: the bytes of the input row from `from` up to `end`, without its newline
    pub found: bool,
    pub from: usize,
    pub end: usize,
    // the bytes of the input row that come behind it
    next: usize,
    to: usize,
    // the rest of a line that was too long is passed over
    passing: bool,
    // no byte will follow those
    last: bool,
    // lines are typed and answers are seen on a terminal: a line that is waited for has a prompt
    pub prompts: bool,
    // how far the output row is written
    pub at: usize,
    // whether the session goes on
    pub more: bool,
}

// Whether lines are typed and answers are seen on a terminal.
fn is_terminal(rt: &HostRuntime) -> bool {
    rt.stdin().is_terminal() && rt.stdout().is_terminal()
}

// A session at its start.
pub fn begun(rt: &HostRuntime) -> Session {
    Session {
        found: false,
        from: 0,
        end: 0,
        next: 0,
        to: 0,
        passing: false,
        last: false,
        prompts: is_terminal(rt),
        at: 0,
        more: true,
    }
}

fn over(session: Session) -> Session {
    let mut s = session;
    s.more = false;
    s
}

// The session with its answers written out, over where that failed.
fn written(rt: &HostRuntime, session: Session, out: &[u8]) -> Session {
    let at = session.at;
    if at <= out.len() {
        let mut s = session;
        s.more = streams::write_all(rt, &out[..at]);
        s.at = 0;
        return s;
    }
    over(session)
}

// The session ended by one of its lines: what was answered is written out, and nothing more is read.
pub fn ended(rt: &HostRuntime, session: Session, out: &[u8]) -> Session {
    over(written(rt, session, out))
}

// Whether the output row has room for one more answer, where `longest` is the longest.
fn has_room(session: Session, out: &[u8], longest: usize) -> bool {
    longest <= out.len() && session.at <= out.len() - longest
}

// The session with a line at hand, and the place behind it.
fn with_line(session: Session, from: usize, end: usize, next: usize) -> Session {
    let mut s = session;
    s.found = true;
    s.from = from;
    s.end = end;
    s.next = next;
    s
}

// The line at hand, empty where there is none.
pub fn line(session: Session, input: &[u8]) -> &[u8] {
    let from = session.from;
    let end = session.end;
    if session.found && end <= input.len() && from <= end {
        return &input[from..end];
    }
    &input[..0]
}

// The next line of the bytes that were read: up to its newline, or to the end of the input. Of one that is too long what
// is there is the line, and the rest is passed over.
pub fn sought(session: Session, input: &[u8], longest: usize) -> Session {
    let mut s = session;
    s.found = false;
    let from = session.next;
    let to = session.to;
    let end = bytes::run_end(input, from, Sort::Line);
    if end < to {
        return with_line(s, from, end, end + 1);
    }
    if from < to {
        if session.last {
            return with_line(s, from, to, to);
        }
        if longest < to - from {
            s.passing = true;
            return with_line(s, from, to, to);
        }
    }
    s
}

// The session with so many bytes at the front of the input row, less those of a line that is passed over.
fn with_block(session: Session, input: &[u8], to: usize) -> Session {
    let mut s = session;
    s.next = 0;
    s.to = to;
    if session.passing {
        let end = bytes::run_end(input, 0, Sort::Line);
        if end < to {
            s.passing = false;
            s.next = end + 1;
        } else {
            s.next = to;
        }
    }
    s
}

// The session with its last bytes at the front of the input row.
fn with_last(session: Session, to: usize) -> Session {
    let mut s = session;
    s.next = 0;
    s.to = to;
    s.last = true;
    s
}

// The session with a few bytes written on a terminal, over where that failed; unchanged where there is no prompt.
fn shown(rt: &HostRuntime, session: Session, bytes: &[u8]) -> Session {
    let mut s = session;
    if session.prompts {
        s.more = streams::write_all(rt, bytes);
    }
    s
}

// The session with its prompt written. A line of which a part is there, or is passed over, has had its own.
fn prompted(rt: &HostRuntime, session: Session) -> Session {
    if session.passing || session.next < session.to {
        return session;
    }
    shown(rt, session, b"> ")
}

// The session with a block read behind the bytes that are no line yet. After a read that failed nothing is answered. The end of what
// is typed leaves the prompt's line.
fn read_block(rt: &HostRuntime, session: Session, input: &mut [u8]) -> Session {
    let kept = feed::compact(input, session.next, session.to);
    match refill(rt, input, kept) {
        Some(Filled::More(n)) => with_block(session, input, n),
        Some(Filled::Last(n)) => with_last(shown(rt, session, b"\n"), n),
        None => over(session),
    }
}

// The session with a block read, and a prompt before it.
fn waited_for(rt: &HostRuntime, session: Session, input: &mut [u8]) -> Session {
    let p = prompted(rt, session);
    if p.more {
        return read_block(rt, p, input);
    }
    p
}

// The session with its answers written out, and one more block read where no line is at hand.
fn written_on(rt: &HostRuntime, session: Session, input: &mut [u8], out: &[u8]) -> Session {
    let w = written(rt, session, out);
    if w.found {
        return w;
    }
    if w.last {
        return over(w);
    }
    if w.more {
        return waited_for(rt, w, input);
    }
    w
}

// Whether `turned` writes out what was answered: no line is at hand, or the longest answer might not fit. Who has to do
// something before an answer is seen does it then.
pub fn writes(session: Session, out: &[u8], answer: usize) -> bool {
    !(session.found && has_room(session, out, answer))
}

// The session that sought a line, with room for an answer to it: the output row is written out and begun anew where the
// longest might not fit. Where no line is there yet, what was answered is written out, and more is read.
pub fn turned(
    rt: &HostRuntime,
    session: Session,
    input: &mut [u8],
    out: &[u8],
    answer: usize,
) -> Session {
    if writes(session, out, answer) {
        return written_on(rt, session, input, out);
    }
    session
}

// Goes on to the next line, where `line` is the longest that is none too long, with room for an answer.
pub fn turn(
    rt: &HostRuntime,
    session: Session,
    input: &mut [u8],
    out: &[u8],
    line: usize,
    answer: usize,
) -> Session {
    let s = sought(session, input, line);
    turned(rt, s, input, out, answer)
}
