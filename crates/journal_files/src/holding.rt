// The hold on a journal, by a file beside it that each start writes a record to: behind the records of those before it. The journal
// is held where one of those still has it open. A process that is gone has nothing open, so a hold needs no one to give it up; and
// of two that start at the same time the one whose record comes first has it. The file only grows, by a line for each start; it may
// be removed while no head-end runs.

ghost use Rattle.std.specs.Prelude.{◌≡◌, ◌≤◌, ◌<◌, length};

use crate::cutting::size_from;
use crate::opening::{Way, open_named, open_or_make};
use crate::processes;
use crate::processes::{BOOT_ROOM, holds, name_of};
use crate::records::{Record, put_record, record_in};
use crate::windows::read_from;
use files::complaints::complain_at;
use files::pages::within_row;
use std::fs::File;
use std::io;
use std::io::{Error, ErrorKind, Seek, SeekFrom, Write};
use std::os::fd::AsRawFd;
use streams::ports::fail;
use streams::usage::complain;
use text::bytes::{Sort, run_end};

// No record is longer: two numbers, a boot's name, two blanks and two newlines.
const RECORD_ROOM: usize = 128;

// Who of those that were looked at holds the journal. `next` is the place behind what was looked at.
#[derive(Clone, Copy)]
struct Seen {
    process: Option<u64>,
    next: usize,
}

// The process of a line that has the journal open. No process has the number 0.
fn process_of(rt: &HostRuntime, line: &[u8], boot: &[u8], name: &[u8]) -> Option<u64> {
    let record = record_in(line, boot)?;
    if record.process != 0 && holds(rt, record, name) {
        return Some(record.process);
    }
    None
}

// The place of the newline that ends the line which begins at a place, or the window's end.
fn line_end(window: &[u8], from: usize) -> usize
    requires { from ≤ length window.now }
    ensures { (from ≤ result) × (result ≤ length window.now) }
{
    run_end(window, from, Sort::Line)
}

// The lines that end in a window, up to the first whose process has the journal open. Where none ends in it, it is passed over.
fn look(rt: &HostRuntime, window: &[u8], boot: &[u8], name: &[u8]) -> Seen {
    let mut from = 0;
    let mut end = line_end(window, 0);
    while end < window.len() {
        let process = process_of(rt, &window[from..end], boot, name);
        if process.is_some() {
            return Seen {
                process,
                next: end + 1,
            };
        }
        from = end + 1;
        end = line_end(window, from);
    }
    Seen {
        process: None,
        next: if from == 0 { window.len() } else { from },
    }
}

// JOURNAL.lock cannot be read.
#[derive(Clone, Copy)]
struct Unreadable;

// What one window shows of the records from a place on, up to our own; nothing next where the file cannot be read.
fn look_at(
    rt: &HostRuntime,
    file: &File,
    place: usize,
    own: usize,
    boot: &[u8],
    name: &[u8],
) -> Seen
    requires { place ≤ own }
{
    let mut room = [0u8; 4_096];
    let read = read_from(rt, file, b"? JOURNAL.lock", place, &mut room);
    let n = within_row(read.unwrap_or(0).min(own - place), &room);
    look(rt, &room[..n], boot, name)
}

// The first process with a record before a place of the file that has the journal open.
fn first_holder(
    rt: &HostRuntime,
    file: &File,
    own: usize,
    boot: &[u8],
    name: &[u8],
) -> Result<Option<u64>, Unreadable> {
    let mut place = 0;
    while place < own {
        let seen = look_at(rt, file, place, own, boot, name);
        if seen.process.is_some() {
            return Ok(seen.process);
        }
        let n = seen.next.min(own - place);
        if n == 0 {
            return Err(Unreadable);
        }
        place += n;
    }
    Ok(None)
}

// Whether no record before a place of JOURNAL.lock is of a process that has the journal open; standard error says which is.
fn is_free(rt: &HostRuntime, own: usize, boot: &[u8], name: &[u8]) -> bool {
    let Some(file) = open_named(rt, name, b".lock", Way::Look, b"? JOURNAL.lock") else {
        return false;
    };
    match first_holder(rt, &file, own, boot, name) {
        Ok(None) => true,
        Ok(Some(process)) => {
            complain_at(
                rt,
                b"JOURNAL",
                b" is held by another head-end, process ",
                process as usize,
            );
            false
        }
        Err(Unreadable) => {
            complain(rt, b"JOURNAL.lock", b" cannot be read");
            false
        }
    }
}

// Why our record was not written, or not where the file ends.
fn why(done: io::Result<usize>, at: io::Result<u64>) -> Error {
    match (done, at) {
        (Err(error), _) => error,
        (Ok(_), Err(error)) => error,
        (Ok(_), Ok(_)) => Error::from(ErrorKind::WriteZero),
    }
}

// Writes our record to the end of JOURNAL.lock and answers the place at which it begins, or that standard error says why there is none.
fn enter(rt: &HostRuntime, record: Record, boot: &[u8], name: &[u8]) -> Option<usize> {
    let mut file = open_or_make(rt, name, b".lock", Way::Append, b"? JOURNAL.lock")?;
    let mut out = [0u8; RECORD_ROOM];
    let n = within_row(put_record(&mut out, record, boot), &out);
    let done = file.write(&out[..n]);
    let at = file.seek(SeekFrom::Current(0));
    let behind = size_from(at);
    match done {
        Ok(m) if m == n && n <= behind => Some(behind - n),
        _ => {
            fail(rt, b"? JOURNAL.lock", why(done, at));
            None
        }
    }
}

// Takes the hold on an open journal, for as long as this process has it open. Answers whether it is ours; standard error says why
// it is not. The file stands beside the journal itself, whatever link led to it, so that two names of one journal meet.
pub fn hold(rt: &HostRuntime, journal: &File) -> bool {
    let record = Record {
        process: processes::own(rt),
        descriptor: processes::number(journal.as_raw_fd()),
    };
    let mut name = [0u8; 4_096];
    let n = match name_of(rt, record, &mut name) {
        Ok(n) => n,
        Err(error) => {
            let what = b"? JOURNAL cannot be held, as /proc does not show it";
            fail(rt, what, error);
            return false;
        }
    };
    let mut text = [0u8; BOOT_ROOM];
    let b = processes::boot(rt, &mut text);
    match enter(rt, record, &text[..b], &name[..n]) {
        Some(at) => is_free(rt, at, &text[..b], &name[..n]),
        None => false,
    }
}
