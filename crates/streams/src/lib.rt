// Standard input and standard output, and open files by a name to complain of, with what went wrong told apart from the
// end. A read or a write that fails is said in a line on standard error, in the system's words, before the call answers:
// the caller has nothing left to do but to stop. No public function has a `requires`, and no contract can say which
// bytes are read or written. `usage` is how many arguments a program takes, and the line that says what is wrong with them.
#![tactic(auto)]

pub mod ports;
pub mod usage;

ghost use Rattle.std.specs.Prelude.{length, IfSome};
ghost use Rattle.streams.specs.Reads.{Holds, Grows};

use crate::ports::fail;
use std::io::{Read, Write};

// What stands at a buffer's start after a read behind the bytes that were kept there.
#[derive(Clone, Copy)]
pub enum Filled {
    // so many bytes, the kept ones first
    More(usize),
    // the kept ones, so many, and no byte will follow
    Last(usize),
}

// Reads once, from an open file, whatever is there, behind the first bytes of a buffer, which are kept; none are where it has not so many.
// Where that failed nothing counts, and standard error says why.
pub fn refill_from<R: Read>(
    rt: &HostRuntime,
    file: &mut R,
    name: &[u8],
    buffer: &mut [u8],
    kept: usize,
) -> Option<Filled>
    ensures room { IfSome result (Holds (length buffer.old)) }
    ensures grows { IfSome result (Grows kept) }
{
    if buffer.len() < kept {
        return Some(Filled::Last(0));
    }
    match file.read(&mut buffer[kept..]) {
        Ok(0) => Some(Filled::Last(kept)),
        Ok(n) => Some(Filled::More(kept + n)),
        Err(error) => {
            fail(rt, name, error);
            None
        }
    }
}

// The same from standard input.
pub fn refill(rt: &HostRuntime, buffer: &mut [u8], kept: usize) -> Option<Filled>
    ensures room { IfSome result (Holds (length buffer.old)) }
    ensures grows { IfSome result (Grows kept) }
{
    let mut input = rt.stdin();
    refill_from(rt, &mut input, b"standard input", buffer, kept)
}

// Writes all the bytes to an open file and answers true, or false where that failed and standard error says why; some
// may be written then.
pub fn write_to<W: Write>(rt: &HostRuntime, file: &mut W, name: &[u8], bytes: &[u8]) -> bool {
    match file.write_all(bytes) {
        Ok(()) => true,
        Err(error) => {
            fail(rt, name, error);
            false
        }
    }
}

// The same to standard output.
pub fn write_all(rt: &HostRuntime, bytes: &[u8]) -> bool {
    let mut output = rt.stdout();
    write_to(rt, &mut output, b"standard output", bytes)
}
