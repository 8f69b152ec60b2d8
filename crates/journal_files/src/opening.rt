// The journal and the files beside it, whose names are the journal's with an ending.

ghost use Rattle.std.specs.Counts.{IsPrefixLen};

use files::pages::within_row;
use files::paths::path;
use std::fs;
use std::fs::{File, OpenOptions};
use std::io::{ErrorKind, Result};
use streams::ports::fail;
use text::output::put;

// The longest path that the system takes, and the longest ending of ours, `.sums.new`.
const PATH_MOST: usize = 4_095;

const ENDING_MOST: usize = 9;

// So long a journal's name may be.
pub const NAME_MOST: usize = PATH_MOST - ENDING_MOST;

// How a file is opened.
#[derive(Clone, Copy)]
pub enum Way {
    // to read
    Look,
    // to read and write
    Update,
    // to write at its end
    Append,
    // to write, where no file has that name
    New,
    // to write from its start, whatever it was
    Anew,
}

// The journal's name with an ending behind it, at the start of a room; what has no room is left out, and then no file is found.
pub fn beside(name: &[u8], ending: &[u8], room: &mut [u8]) -> usize
    ensures { IsPrefixLen result room.new }
{
    let a = put(room, 0, name);
    let b = put(room, a, ending);
    within_row(b, room)
}

fn opened(rt: &HostRuntime, name: &[u8], way: Way) -> Result<File> {
    let text = path(name)?;
    match way {
        Way::Look => OpenOptions::new().read(true).open(rt, text),
        Way::Update => OpenOptions::new().read(true).write(true).open(rt, text),
        Way::Append => OpenOptions::new().append(true).open(rt, text),
        Way::New => OpenOptions::new()
            .write(true)
            .create_new(true)
            .open(rt, text),
        Way::Anew => OpenOptions::new()
            .write(true)
            .create(true)
            .truncate(true)
            .open(rt, text),
    }
}

// The file beside the journal with this ending, and the journal itself with none.
pub fn open(rt: &HostRuntime, name: &[u8], ending: &[u8], way: Way) -> Result<File> {
    let mut room = [0u8; 4_096];
    let n = beside(name, ending, &mut room);
    opened(rt, &room[..n], way)
}

// The same, where a complaint names the file if there is none.
pub fn open_named(
    rt: &HostRuntime,
    name: &[u8],
    ending: &[u8],
    way: Way,
    what: &[u8],
) -> Option<File> {
    match open(rt, name, ending, way) {
        Ok(file) => Some(file),
        Err(error) => {
            fail(rt, what, error);
            None
        }
    }
}

// A file that is missing is made, empty; another start may have made it since.
fn make(rt: &HostRuntime, name: &[u8], ending: &[u8], what: &[u8]) -> bool {
    match open(rt, name, ending, Way::New) {
        Ok(_) => true,
        Err(error) => {
            if error.kind() == ErrorKind::AlreadyExists {
                return true;
            }
            fail(rt, what, error);
            false
        }
    }
}

// The file, made where it is missing, or that standard error says why there is none.
pub fn open_or_make(
    rt: &HostRuntime,
    name: &[u8],
    ending: &[u8],
    way: Way,
    what: &[u8],
) -> Option<File> {
    match open(rt, name, ending, way) {
        Ok(file) => Some(file),
        Err(error) => {
            if error.kind() != ErrorKind::NotFound {
                fail(rt, what, error);
                return None;
            }
            if make(rt, name, ending, what) {
                open_named(rt, name, ending, way, what)
            } else {
                None
            }
        }
    }
}

fn renamed(rt: &HostRuntime, old: &[u8], new: &[u8]) -> Result<()> {
    fs::rename(rt, path(old)?, path(new)?)
}

// The file with one ending takes the name with another; standard error says why it does not.
pub fn rename(rt: &HostRuntime, name: &[u8], from: &[u8], to: &[u8], what: &[u8]) -> bool {
    let mut old = [0u8; 4_096];
    let n = beside(name, from, &mut old);
    let mut new = [0u8; 4_096];
    let m = beside(name, to, &mut new);
    if let Err(error) = renamed(rt, &old[..n], &new[..m]) {
        fail(rt, what, error);
        return false;
    }
    true
}

// Removes the file with an ending, where there is one.
pub fn remove(rt: &HostRuntime, name: &[u8], ending: &[u8]) {
    let mut room = [0u8; 4_096];
    let n = beside(name, ending, &mut room);
    if let Ok(text) = path(&room[..n]) {
        let _ = fs::remove_file(rt, text);
    }
}
