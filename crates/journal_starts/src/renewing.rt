// The sums of a journal made anew: into a file beside it, which takes the name of the sums once it is whole and forced.

use crate::findings::say_wrong;
use crate::playing::{SUMS_ROOM, is_stuck, less, read_part, show};
use crate::saying::say_one;
use agent_rows::ROW_LENGTH;
use files::complaints::complain_at;
use files::pages::within_row;
use journal_files::appending::force;
use journal_files::cutting::size_of;
use journal_files::folders::force_folder;
use journal_files::holding::hold;
use journal_files::opening::{Way, open_named, remove, rename};
use journals::summing::sums_in;
use journals::{Start, Verdict, going, hear, is_good};
use row_calls::starting::fresh;
use std::fs::File;
use streams::ports::Port;
use streams::write_to;

// The open journal and its size, and the open file of its new sums.
#[derive(Clone, Copy)]
struct Renewal<'a> {
    journal: &'a File,
    size: usize,
    sums: &'a File,
}

// One window of the journal, with the sums of its notices written first, or that standard error says why not.
fn renew_window(
    rt: &HostRuntime,
    r: Renewal<'_>,
    start: Start,
    row: &mut [u64],
    room: &mut [u8],
    sums: &mut [u8],
) -> Option<Start> {
    let place = start.place;
    let read = read_part(rt, r.journal, b"? JOURNAL", place, r.size, room)?;
    let n = within_row(read, room);
    let over = less(r.size, place) <= n;
    let m = within_row(sums_in(&room[..n], over, sums), sums);
    let mut end = r.sums;
    let what = b"? JOURNAL.sums.new cannot be written";
    if !write_to(rt, &mut end, what, &sums[..m]) {
        return None;
    }
    Some(hear(start, row, &room[..n], &sums[..m], over))
}

// The journal to its end, or to what is wrong with it, unless its files failed. The windows are counted as in `playing`.
fn renew_all(rt: &HostRuntime, r: Renewal<'_>, row: &mut [u64]) -> Option<Start> {
    let mut room = [0u8; 65_536];
    let mut sums = [0u8; SUMS_ROOM];
    let mut start = journals::begun(r.size, true, usize::MAX);
    for _ in 0..u64::MAX {
        if !going(start) {
            break;
        }
        let next = renew_window(rt, r, start, row, &mut room, &mut sums)?;
        if is_stuck(start, next) {
            return Some(next);
        }
        start = next;
        show(rt, start);
    }
    Some(start)
}

// Whether a journal of so many bytes plays whole: to its end, where no sum is left to be asked for.
fn is_whole(start: Start, size: usize) -> bool {
    match start.verdict {
        Verdict::Heard => true,
        Verdict::Hearing => start.place == size,
        _ => false,
    }
}

// Why a journal does not play whole.
fn say_broken(rt: &HostRuntime, start: Start) {
    let verdict = start.verdict;
    if is_good(verdict) {
        complain_at(
            rt,
            b"JOURNAL",
            b" does not play whole (salvage writes what can be kept): torn end at byte ",
            start.place,
        );
    } else {
        say_wrong(rt, Port::Errors, start);
    }
}

// The new sums take the place of the old.
fn put_in_place(rt: &HostRuntime, name: &[u8], sums: &File, start: Start) -> bool {
    let placed = force(rt, sums, b"? JOURNAL.sums.new cannot be forced to disk")
        && rename(rt, name, b".sums.new", b".sums", b"? JOURNAL.sums");
    if placed && force_folder(rt, name) {
        say_one(
            rt,
            Port::Output,
            b"JOURNAL.sums: made anew, ",
            start.heard,
            b" sums\n",
        );
    }
    placed
}

fn renew_into(rt: &HostRuntime, pool: u64, name: &[u8], r: Renewal<'_>) -> bool {
    let mut row = [0u64; ROW_LENGTH];
    fresh(&mut row, pool);
    let Some(start) = renew_all(rt, r, &mut row) else {
        return false;
    };
    if is_whole(start, r.size) {
        return put_in_place(rt, name, r.sums, start);
    }
    say_broken(rt, start);
    false
}

// The new sums of a held journal of so many bytes; what was begun and is not whole is removed.
fn renew_held(rt: &HostRuntime, pool: u64, name: &[u8], journal: &File, size: usize) {
    let Some(sums) = open_named(rt, name, b".sums.new", Way::Anew, b"? JOURNAL.sums.new") else {
        return;
    };
    let r = Renewal {
        journal,
        size,
        sums: &sums,
    };
    if !renew_into(rt, pool, name, r) {
        remove(rt, name, b".sums.new");
    }
}

pub fn renew(rt: &HostRuntime, pool: u64, name: &[u8]) {
    let Some(journal) = open_named(rt, name, b"", Way::Look, b"? JOURNAL") else {
        return;
    };
    if hold(rt, &journal) {
        if let Some(size) = size_of(rt, &journal, b"? JOURNAL") {
            renew_held(rt, pool, name, &journal, size);
        }
    }
}
