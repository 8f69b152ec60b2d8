// A file's size, and a file cut to its first bytes.

use std::fs::File;
use std::io::{Result, Seek, SeekFrom};
use streams::ports::fail;

// The largest size that the system counts.
const SIZE_MOST: usize = 9_223_372_036_854_775_807;

// A place that the system gives; 0 where it gives none.
pub fn size_from(at: Result<u64>) -> usize {
    at.unwrap_or(0) as usize
}

// How many bytes a file has. One that has no end to go to, as a pipe, has no size, and standard error says why.
pub fn size_of(rt: &HostRuntime, file: &File, what: &[u8]) -> Option<usize> {
    let mut place = file;
    match place.seek(SeekFrom::End(0)) {
        Ok(at) => Some(at as usize),
        Err(error) => {
            fail(rt, what, error);
            None
        }
    }
}

// A place as the system counts it, and its last one for places beyond.
pub fn offset(place: usize) -> u64 {
    place.min(SIZE_MOST) as u64
}

// Cuts a file to its first bytes and forces that; standard error says why it was not done.
pub fn cut(rt: &HostRuntime, file: &File, bytes: usize, what: &[u8]) -> bool {
    if let Err(error) = file.set_len(offset(bytes)) {
        fail(rt, what, error);
        return false;
    }
    if let Err(error) = file.sync_all() {
        fail(rt, what, error);
        return false;
    }
    true
}
