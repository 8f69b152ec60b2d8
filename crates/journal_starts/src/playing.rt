// The journal played, window by window, into an agent that is lent as a row. No contract can say what the files have: what a window
// does to the row is said in `journals`.

ghost use Rattle.std.specs.Prelude.{◌≡◌, ◌-◌};

use crate::saying::say_one;
use files::pages::within_row;
use journal_files::pairs::Pair;
use journal_files::windows::read_from;
use journals::{BLOCK, SUM, Start, going, hear, sums_length};
use std::fs::File;
use std::io::IsTerminal;
use streams::ports::{Port, tell};

// Room for the sums of a window's notices, of which the shortest has 26 bytes.
pub const SUMS_ROOM: usize = BLOCK / 26 * SUM;

// How much more a is than b, 0 where it is less.
pub fn less(a: usize, b: usize) -> usize
    ensures { result ≡ a - b }
{
    a.saturating_sub(b)
}

// What a file of so many bytes has from a place on, as much as a room holds.
pub fn read_part(
    rt: &HostRuntime,
    file: &File,
    what: &[u8],
    place: usize,
    size: usize,
    room: &mut [u8],
) -> Option<usize> {
    let most = within_row(less(size, place), room);
    read_from(rt, file, what, place, &mut room[..most])
}

// What was read of the journal and of its sums, played.
fn hear_read(
    start: Start,
    row: &mut [u64],
    size: usize,
    room: &[u8],
    read: usize,
    sums: &[u8],
    beside: usize,
) -> Start {
    let n = within_row(read, room);
    let m = within_row(beside, sums);
    let over = less(size, start.place) <= n;
    hear(start, row, &room[..n], &sums[..m], over)
}

// The same of the sums of a pair: nothing where there are none.
fn read_sums(rt: &HostRuntime, pair: &Pair, place: usize, room: &mut [u8]) -> Option<usize> {
    match &pair.sums {
        Some(file) => read_part(rt, file, b"? JOURNAL.sums", place, pair.summed, room),
        None => Some(0),
    }
}

// One window of the journal, and the sums beside it, or that standard error says which could not be read.
fn play_window(
    rt: &HostRuntime,
    pair: &Pair,
    start: Start,
    row: &mut [u64],
    room: &mut [u8],
    sums: &mut [u8],
) -> Option<Start> {
    let window = read_part(
        rt,
        &pair.journal,
        b"? JOURNAL",
        start.place,
        pair.size,
        room,
    );
    let beside = read_sums(rt, pair, sums_length(start), sums);
    Some(hear_read(start, row, pair.size, room, window?, sums, beside?))
}

// On a terminal, how far it has come, on a line that the next one overwrites.
pub fn show(rt: &HostRuntime, start: Start) {
    if rt.stderr().is_terminal() {
        say_one(rt, Port::Errors, b"\rJOURNAL: ", start.heard, b" notices");
        if going(start) {
            return;
        }
        tell(rt, Port::Errors, b"\r\x1b[K");
    }
}

// Whether a window that left the start where it was shows that there is no more to be had.
pub fn is_stuck(before: Start, after: Start) -> bool {
    going(after) && before.place == after.place
}

// The journal to its end, or to what is wrong with it, unless its files could not be read. A proved loop has to end, and nothing says that a
// file does: so the windows are counted, up to a number that no run uses up.
pub fn play(rt: &HostRuntime, pair: &Pair, row: &mut [u64]) -> Option<Start> {
    let mut room = [0u8; 65_536];
    let mut sums = [0u8; SUMS_ROOM];
    let mut start = journals::begun(pair.size, pair.sums.is_some(), pair.summed);
    for _ in 0..u64::MAX {
        if !going(start) {
            break;
        }
        let next = play_window(rt, pair, start, row, &mut room, &mut sums)?;
        if is_stuck(start, next) {
            return Some(next);
        }
        start = next;
        show(rt, start);
    }
    Some(start)
}
