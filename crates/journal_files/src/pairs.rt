// A journal and the sums beside it, both open, with the sizes that they had then.

use crate::cutting::size_of;
use crate::opening::{Way, open, open_or_make};
use std::fs::File;
use std::io::ErrorKind;
use streams::ports::fail;

#[derive(Drop)]
pub struct Pair {
    pub journal: File,
    // or that there are none at all
    pub sums: Option<File>,
    pub size: usize,
    pub summed: usize,
}

fn without_sums(journal: File, size: usize) -> Pair {
    Pair {
        journal,
        sums: None,
        size,
        summed: 0,
    }
}

fn with_sums(rt: &HostRuntime, journal: File, size: usize, sums: File) -> Option<Pair> {
    let summed = size_of(rt, &sums, b"? JOURNAL.sums")?;
    Some(Pair {
        journal,
        sums: Some(sums),
        size,
        summed,
    })
}

// The sums that stand there, or that there are none.
fn standing(rt: &HostRuntime, name: &[u8], journal: File, size: usize, way: Way) -> Option<Pair> {
    match open(rt, name, b".sums", way) {
        Ok(sums) => with_sums(rt, journal, size, sums),
        Err(error) => {
            if error.kind() == ErrorKind::NotFound {
                return Some(without_sums(journal, size));
            }
            fail(rt, b"? JOURNAL.sums", error);
            None
        }
    }
}

// The sums of an empty journal, made where they are missing.
fn made(rt: &HostRuntime, name: &[u8], journal: File) -> Option<Pair> {
    let sums = open_or_make(rt, name, b".sums", Way::Update, b"? JOURNAL.sums")?;
    with_sums(rt, journal, 0, sums)
}

// An open journal with its sums, to be looked at, or that standard error says what is wrong.
pub fn looked_at(rt: &HostRuntime, name: &[u8], journal: File) -> Option<Pair> {
    let size = size_of(rt, &journal, b"? JOURNAL")?;
    standing(rt, name, journal, size, Way::Look)
}

// An open journal with its sums, to be gone on with: those of an empty journal are made.
pub fn gone_on_with(rt: &HostRuntime, name: &[u8], journal: File) -> Option<Pair> {
    let size = size_of(rt, &journal, b"? JOURNAL")?;
    if size == 0 {
        return made(rt, name, journal);
    }
    standing(rt, name, journal, size, Way::Update)
}
