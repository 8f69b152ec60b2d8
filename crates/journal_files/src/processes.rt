// Processes, and the files that they have open, as the folder /proc tells.

ghost use Rattle.std.specs.Prelude.{IfOk};
ghost use Rattle.std.specs.Counts.{IsPrefixLen};
ghost use Rattle.journal_files.specs.Paths.{Ended};

use crate::records::Record;
use files::arguments::same;
use files::pages::within_row;
use files::paths::path;
use std::io::{ErrorKind, Read, Result};
use std::path::PathBuf;
use std::{fs, process};
use text::bytes::{Sort, run_end};
use text::digits::put_number;
use text::output::put;

// The bytes of a boot's name, and one more.
pub const BOOT_ROOM: usize = 64;

// Room for any path.
const PATH_ROOM: usize = 4_096;

// The system's number for what may not be looked at.
const NO_ACCESS: i32 = 13;

// The largest process number.
const PROCESS_MOST: u64 = 2_147_483_647;

// A number that the system gives, where none is below 0.
pub fn number(n: i32) -> u64 {
    u64::try_from(n).unwrap_or(0)
}

// The process itself.
pub fn own(rt: &HostRuntime) -> u64 {
    process::id(rt.process()) as u64
}

// Whether there is a file of this path, which zeros end.
fn is_there(rt: &HostRuntime, ended: &[u8]) -> bool {
    match path(before_zero(ended)) {
        Ok(text) => fs::metadata(rt, text).is_ok(),
        Err(_) => false,
    }
}

// Whether there is such a process.
fn lives(rt: &HostRuntime, process: u64) -> bool {
    process != 0 && process <= PROCESS_MOST && is_there(rt, &path_of_number(b"/proc/", process))
}

// The path under which /proc shows a descriptor, with zeros behind it.
fn path_of(record: Record) -> [u8; PATH_ROOM]
    ensures { Ended result }
{
    let mut path = [0u8; PATH_ROOM];
    let a = put(&mut path, 0, b"/proc/");
    let b = put_number(&mut path, a, record.process);
    let c = put(&mut path, b, b"/fd/");
    put_number(&mut path, c, record.descriptor);
    path[PATH_ROOM - 1] = 0;
    path
}

// A path that ends in a number, with zeros behind it.
fn path_of_number(folder: &[u8], n: u64) -> [u8; PATH_ROOM]
    ensures { Ended result }
{
    let mut path = [0u8; PATH_ROOM];
    let a = put(&mut path, 0, folder);
    put_number(&mut path, a, n);
    path[PATH_ROOM - 1] = 0;
    path
}

// The path under which /proc shows a thread of this process, with zeros behind it.
fn path_of_own(thread: u64) -> [u8; PATH_ROOM]
    ensures { Ended result }
{
    path_of_number(b"/proc/self/task/", thread)
}

// The bytes of a path up to its first zero.
fn before_zero(ended: &[u8]) -> &[u8] {
    match ended.iter().position(|b| *b == 0) {
        Some(n) => &ended[..n],
        None => ended,
    }
}

// Whether a number is this process's, or that of a thread of it: /proc shows a thread's files like a process's, and an emulator has
// threads that the program knows nothing of.
fn is_own(rt: &HostRuntime, process: u64) -> bool {
    let folder = path_of_own(process);
    is_there(rt, &folder)
}

// What /proc shows of a descriptor.
fn shown(rt: &HostRuntime, record: Record) -> Result<PathBuf> {
    let link = path_of(record);
    fs::read_link(rt, path(before_zero(&link))?)
}

// The file that a process has open under a descriptor, by its name.
pub fn name_of(rt: &HostRuntime, record: Record, room: &mut [u8]) -> Result<usize>
    ensures { IfOk result (λ n. IsPrefixLen n room.new) }
{
    let file = shown(rt, record)?;
    let n = put(room, 0, file.as_path().as_str().as_bytes());
    Ok(within_row(n, room))
}

// Whether another process has the file of this name open, as a record says. One that may not be looked at, as it is another
// user's, counts as one that has, and so does one for whose name no memory is left.
pub fn holds(rt: &HostRuntime, record: Record, name: &[u8]) -> bool {
    if is_own(rt, record.process) {
        return false;
    }
    let mut room = [0u8; 4_096];
    match name_of(rt, record, &mut room) {
        Ok(n) => same(&room[..n], name),
        Err(error) => match error.raw_os_error() {
            Some(NO_ACCESS) => lives(rt, record.process),
            Some(_) => false,
            None => error.kind() == ErrorKind::OutOfMemory,
        },
    }
}

// The name of this run of the machine, up to its newline; empty where there is none.
pub fn boot(rt: &HostRuntime, room: &mut [u8]) -> usize
    ensures { IsPrefixLen result room.new }
{
    let Ok(mut file) = fs::open(rt, "/proc/sys/kernel/random/boot_id") else {
        return 0;
    };
    let n = file.read(room).unwrap_or(0);
    within_row(n.min(run_end(room, 0, Sort::Line)), room)
}
