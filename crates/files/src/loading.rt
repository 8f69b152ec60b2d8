// Files that arguments name, each whole in a lent room.

ghost use Rattle.std.specs.Prelude.{◌≤◌, length, IfOk, IfSome};

use crate::paths::path;
use std::io::{Error, ErrorKind, Read};
use std::rt::Env;
use std::{fs, io};
use streams::ports::fail;
use streams::usage::complain;

// Room for a log: a file is read with room for one byte more than it may have, which shows it to be too long.
pub const LOG_ROOM: usize = 1_048_577;

// The arguments that name the log and the program's own file.
const LOG_ARGUMENT: usize = 3;

const OWN_ARGUMENT: usize = 4;

// Why a file was not loaded.
#[derive(Clone, Copy)]
enum Wrong {
    Long,
    // why the system did not open it or read on
    Unread(Error),
}

impl From<Error> for Wrong {
    fn from(error: Error) -> Wrong {
        Wrong::Unread(error)
    }
}

// How many bytes a program's two files have, each at its room's start.
#[derive(Clone, Copy)]
pub struct Files {
    pub log: usize,
    pub own: usize,
}

// All bytes of an open file. One that fills the room has more than it may.
fn read_all<R: Read>(file: &mut R, room: &mut [u8]) -> Result<usize, Wrong>
    ensures { IfOk result (λ n. n ≤ length room.old) }
{
    let mut filled = 0;
    while filled < room.len() {
        let n = file.read(&mut room[filled..])?;
        if n == 0 {
            return Ok(filled);
        }
        filled += n;
    }
    Err(Wrong::Long)
}

// The file that an argument names, opened to be read.
fn opened(rt: &HostRuntime, i: usize) -> io::Result<fs::File> {
    let mut name = [0u8; 4_096];
    let Ok(n) = rt.arg(i, &mut name) else {
        return Err(Error::from(ErrorKind::InvalidFilename));
    };
    fs::open(rt, path(&name[..n])?)
}

// All bytes of the file that an argument names.
fn read_named(rt: &HostRuntime, i: usize, room: &mut [u8]) -> Result<usize, Wrong>
    ensures { IfOk result (λ n. n ≤ length room.old) }
{
    let mut file = opened(rt, i)?;
    read_all(&mut file, room)
}

// The same, and what is wrong with a file that was not loaded is said on standard error.
fn load(rt: &HostRuntime, i: usize, what: &[u8], room: &mut [u8]) -> Option<usize>
    ensures { IfSome result (λ n. n ≤ length room.old) }
{
    match read_named(rt, i, room) {
        Ok(n) => return Some(n),
        Err(Wrong::Long) => complain(rt, what, b" is too long"),
        Err(Wrong::Unread(_)) => complain(rt, what, b" cannot be read"),
    }
    None
}

// How many bytes the log has; what is wrong with it is said on standard error.
pub fn load_log(rt: &HostRuntime, log: &mut [u8]) -> Option<usize>
    ensures { IfSome result (λ n. n ≤ length log.old) }
{
    load(rt, LOG_ARGUMENT, b"LOG", log)
}

// The same of the log on standard input.
pub fn load_input(rt: &HostRuntime, log: &mut [u8]) -> Option<usize>
    ensures { IfSome result (λ n. n ≤ length log.old) }
{
    let mut input = rt.stdin();
    match read_all(&mut input, log) {
        Ok(n) => return Some(n),
        Err(Wrong::Long) => complain(
            rt,
            b"LOG",
            b" is too long: give its first 1 MiB, as head -c 1048576 does",
        ),
        Err(Wrong::Unread(error)) => fail(rt, b"standard input", error),
    }
    None
}

// The log and the program's own file, under the name that a complaint gives it. The first that was not loaded is said on
// standard error, and then neither counts.
pub fn load_both(rt: &HostRuntime, log: &mut [u8], name: &[u8], own: &mut [u8]) -> Option<Files>
    ensures { IfSome result (λ f. (f.log ≤ length log.old) × (f.own ≤ length own.old)) }
{
    let log = load(rt, LOG_ARGUMENT, b"LOG", log)?;
    let own = load(rt, OWN_ARGUMENT, name, own)?;
    Some(Files { log, own })
}
