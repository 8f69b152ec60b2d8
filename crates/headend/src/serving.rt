// The head-end's life: the journal is opened and held, played and set right, and then lines are answered.

use crate::lines::answer_lines;
use agent_rows::{LAST_AT, ROW_LENGTH, SEQUENCE_AT};
use journal_files::appending::{force_both, go_to_end, open_sums};
use journal_files::cutting::cut;
use journal_files::folders::force_folder;
use journal_files::holding::hold;
use journal_files::opening::{Way, open_or_make};
use journal_files::pairs::{Pair, gone_on_with};
use journal_starts::findings::{say_ends, say_wrong};
use journal_starts::playing::play;
use journal_starts::saying::say_heard;
use journals::{Start, is_good, sums_length};
use row_calls::starting::fresh;
use row_questions::standing::agent_in;
use streams::ports::Port;

fn cut_sums(rt: &HostRuntime, pair: &Pair, kept: usize) -> bool {
    let what = b"? JOURNAL.sums cannot be cut";
    let Some(sums) = open_sums(rt, &pair.sums, what) else {
        return false;
    };
    cut(rt, sums, kept, what)
}

// Cuts off the ends that do not count, and says so.
fn cut_ends(rt: &HostRuntime, pair: &Pair, start: Start) -> bool {
    if start.cut < pair.size && !cut(rt, &pair.journal, start.cut, b"? JOURNAL cannot be cut") {
        return false;
    }
    let kept = sums_length(start);
    if kept < pair.summed && !cut_sums(rt, pair, kept) {
        return false;
    }
    say_ends(rt, Port::Errors, pair, start, true);
    true
}

// Forces what stands in both files, and the folder's entries of them, before anything is answered from it: what a process that is
// gone wrote last may not have been forced.
fn force_all(rt: &HostRuntime, name: &[u8], pair: &Pair) -> bool {
    force_both(rt, &pair.journal, &pair.sums) && force_folder(rt, name)
}

// The next write to each file goes to its end.
fn at_ends(rt: &HostRuntime, pair: &Pair) -> bool {
    if go_to_end(rt, &pair.journal, b"? JOURNAL") {
        let what = b"? JOURNAL.sums";
        let Some(sums) = open_sums(rt, &pair.sums, what) else {
            return false;
        };
        return go_to_end(rt, sums, what);
    }
    false
}

fn settle(rt: &HostRuntime, name: &[u8], pair: &Pair, start: Start) -> bool {
    cut_ends(rt, pair, start) && force_all(rt, name, pair) && at_ends(rt, pair)
}

// Says how the journal ends, and goes on from there.
fn go_on(rt: &HostRuntime, pair: &Pair, start: Start, row: &[u64; ROW_LENGTH]) {
    say_heard(
        rt,
        Port::Errors,
        start.heard,
        row[SEQUENCE_AT],
        row[LAST_AT],
    );
    answer_lines(rt, pair, agent_in(row));
}

fn begin(rt: &HostRuntime, pool: u64, name: &[u8], pair: &Pair) {
    let mut row = [0u64; ROW_LENGTH];
    fresh(&mut row, pool);
    let Some(start) = play(rt, pair, &mut row) else {
        return;
    };
    if !is_good(start.verdict) {
        say_wrong(rt, Port::Errors, start);
    } else if settle(rt, name, pair, start) {
        go_on(rt, pair, start, &row);
    }
}

pub fn serve(rt: &HostRuntime, pool: u64, name: &[u8]) {
    let Some(journal) = open_or_make(rt, name, b"", Way::Update, b"? JOURNAL") else {
        return;
    };
    if hold(rt, &journal) {
        if let Some(pair) = gone_on_with(rt, name, journal) {
            begin(rt, pool, name, &pair);
        }
    }
}
