// The head-end: the console's lines on standard input, and a journal of notices that is its memory. Arguments POOL JOURNAL; with
// --check before them it only looks at the journal, with --sums it makes the sums of its notices anew.
#![tactic(auto)]

mod asked;
mod lines;
mod serving;

use crate::asked::{Task, take_arguments};
use journal_starts::{looking, renewing};

fn main(rt: HostRuntime) {
    let mut room = [0u8; 4_096];
    let Some(asked) = take_arguments(&rt, &mut room) else {
        return;
    };
    let name = &room[..asked.size];
    match asked.task {
        Task::Serve => serving::serve(&rt, asked.pool, name),
        Task::Check => looking::look(&rt, asked.pool, name),
        Task::Sums => renewing::renew(&rt, asked.pool, name),
    }
}
