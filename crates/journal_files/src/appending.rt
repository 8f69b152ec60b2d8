// Notices and their sums, written behind those that stand and forced to disk.

use std::fs::File;
use std::io::{Error, Seek, SeekFrom};
use streams::ports::fail;
use streams::write_to;

// The system's number for a file that is not open.
const NOT_OPEN: i32 = 9;

// The sums, where they are open; standard error says that they are not.
pub fn open_sums<'a>(rt: &HostRuntime, sums: &'a Option<File>, what: &[u8]) -> Option<&'a File> {
    let Some(file) = sums else {
        fail(rt, what, Error::from_raw_os_error(NOT_OPEN));
        return None;
    };
    Some(file)
}

// The next write goes to the file's end.
pub fn go_to_end(rt: &HostRuntime, file: &File, what: &[u8]) -> bool {
    let mut place = file;
    if let Err(error) = place.seek(SeekFrom::End(0)) {
        fail(rt, what, error);
        return false;
    }
    true
}

pub fn force(rt: &HostRuntime, file: &File, what: &[u8]) -> bool {
    if let Err(error) = file.sync_data() {
        fail(rt, what, error);
        return false;
    }
    true
}

fn force_sums(rt: &HostRuntime, sums: &Option<File>) -> bool {
    let what = b"? JOURNAL.sums cannot be forced to disk";
    let Some(file) = open_sums(rt, sums, what) else {
        return false;
    };
    force(rt, file, what)
}

// Forces the journal and its sums.
pub fn force_both(rt: &HostRuntime, journal: &File, sums: &Option<File>) -> bool {
    force(rt, journal, b"? JOURNAL cannot be forced to disk") && force_sums(rt, sums)
}

fn write_sums(rt: &HostRuntime, sums: &Option<File>, of_notices: &[u8]) -> bool {
    let what = b"? JOURNAL.sums cannot be written";
    let Some(file) = open_sums(rt, sums, what) else {
        return false;
    };
    let mut end = file;
    write_to(rt, &mut end, what, of_notices)
}

// The journal first, so that a sum never stands alone but by the disk's own order; then both are forced. No byte to write asks for
// no force.
pub fn append(
    rt: &HostRuntime,
    journal: &File,
    notices: &[u8],
    sums: &Option<File>,
    of_notices: &[u8],
) -> bool {
    if notices.is_empty() {
        return true;
    }
    let mut end = journal;
    write_to(rt, &mut end, b"? JOURNAL cannot be written", notices)
        && write_sums(rt, sums, of_notices)
        && force_both(rt, journal, sums)
}
