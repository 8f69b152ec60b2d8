// The journal and its sums looked at, and nothing changed: what was found goes to standard output.

use crate::findings::{say_ends, say_wrong};
use crate::playing::play;
use crate::saying::say_heard;
use agent_rows::{LAST_AT, ROW_LENGTH, SEQUENCE_AT};
use journal_files::opening::{Way, open_named};
use journal_files::pairs::{Pair, looked_at};
use journals::{Start, is_good};
use row_calls::starting::fresh;
use streams::ports::Port;

// What was found.
pub fn tell(rt: &HostRuntime, port: Port, pair: &Pair, start: Start, row: &[u64; ROW_LENGTH]) {
    let verdict = start.verdict;
    if is_good(verdict) {
        say_ends(rt, port, pair, start, false);
        say_heard(rt, port, start.heard, row[SEQUENCE_AT], row[LAST_AT]);
    } else {
        say_wrong(rt, port, start);
    }
}

pub fn look(rt: &HostRuntime, pool: u64, name: &[u8]) {
    let Some(journal) = open_named(rt, name, b"", Way::Look, b"? JOURNAL") else {
        return;
    };
    if let Some(pair) = looked_at(rt, name, journal) {
        let mut row = [0u64; ROW_LENGTH];
        fresh(&mut row, pool);
        if let Some(start) = play(rt, &pair, &mut row) {
            tell(rt, Port::Output, &pair, start, &row);
        }
    }
}
