// What the arguments ask for: what to do, with which pool, and the journal's name.

ghost use Rattle.std.specs.Prelude.{◌≤◌, IfSome};
ghost use Rattle.std.specs.Counts.{IsPrefixLen};

use files::arguments::{is_word, pool_given};
use files::pages::within_row;
use journal_files::opening::NAME_MOST;
use std::rt::Env;
use streams::usage::{are_right, complain};

#[derive(Clone, Copy)]
pub enum Task {
    Serve,
    Check,
    Sums,
}

// The journal's name is so many bytes at the start of a room.
#[derive(Clone, Copy)]
pub struct Asked {
    pub task: Task,
    pub pool: u64,
    pub size: usize,
}

fn task_asked(rt: &HostRuntime) -> Task {
    if is_word(rt, 1, b"--check") {
        return Task::Check;
    }
    if is_word(rt, 1, b"--sums") {
        return Task::Sums;
    }
    Task::Serve
}

// The place of POOL among the arguments, before that of JOURNAL.
fn pool_place(task: Task) -> usize
    ensures { result ≤ 2 }
{
    match task {
        Task::Serve => 1,
        Task::Check => 2,
        Task::Sums => 2,
    }
}

// The journal's name, at the start of a room, or that standard error says why there is none that can be used.
fn name_asked(rt: &HostRuntime, place: usize, room: &mut [u8]) -> Option<usize>
    ensures { IfSome result (λ n. IsPrefixLen n room.new) }
{
    match rt.arg(place, room) {
        Ok(0) => complain(rt, b"JOURNAL", b" is no name"),
        Ok(n) if n <= NAME_MOST => return Some(within_row(n, room)),
        _ => complain(rt, b"JOURNAL", b" is too long a name"),
    }
    None
}

// What the arguments ask for, or that standard error says what is wrong with them.
pub fn take_arguments(rt: &HostRuntime, room: &mut [u8]) -> Option<Asked>
    ensures { IfSome result (λ asked. IsPrefixLen asked.size room.new) }
{
    let task = task_asked(rt);
    let place = pool_place(task);
    let many = place + 2;
    if !are_right(
        rt,
        place,
        many,
        many,
        b"headend [--check | --sums] POOL JOURNAL",
    ) {
        return None;
    }
    let pool = pool_given(rt, place)?;
    let size = name_asked(rt, place + 1, room)?;
    Some(Asked { task, pool, size })
}
