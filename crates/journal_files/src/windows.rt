// A part of an open file, read into a lent room.

ghost use Rattle.std.specs.Prelude.{◌≤◌, length, IfSome};

use crate::cutting::offset;
use std::fs::File;
use std::os::unix::fs::FileExt;
use streams::ports::fail;

// How many bytes of a file, from a place on, stand at the room's start, as many as there are and have room, or that the read failed and
// standard error says why.
pub fn read_from(
    rt: &HostRuntime,
    file: &File,
    what: &[u8],
    place: usize,
    room: &mut [u8],
) -> Option<usize>
    ensures { IfSome result (λ n. n ≤ length room.old) }
{
    let mut filled = 0;
    while filled < room.len() {
        match file.read_at(&mut room[filled..], offset(place.saturating_add(filled))) {
            Ok(0) => return Some(filled),
            Ok(n) => filled += n,
            Err(error) => {
                fail(rt, what, error);
                return None;
            }
        }
    }
    Some(filled)
}
