// From standard input to two streams, for input of any length. What was read is kept in a buffer; what of it a block does not
// decide moves to the buffer's front before the next read. A read or a write that fails is said on standard error, as far as that
// can be written, and ends the program: nothing more is read or written. No contract can say what is read and written: `pass_on`
// says that what it writes is a block's, and proofs/InBlocks that such blocks together are the scan of all the input.

ghost use Rattle.std.specs.Prelude.{◌≡◌, true, false, ◌+◌, ◌≤◌, ◌<◌, ◌^◌, length};
ghost use Rattle.notice.specs.Fields.{longest_notice};
ghost use Rattle.scanning.specs.inner.Steps.{Counts};
ghost use Rattle.salvage.specs.Blocks.{block_room, Passes};

use crate::blocks::{BLOCK_ROOM, scan_block};
use salvage_lines::{END_ROOM, put_end};
use scanning::steps::{Progress, begun};
use streams::ports::{Port, tell};
use streams::{Filled, refill};
use text::feed::compact;

// Where the taken notices go, and where the report goes.
#[derive(Clone, Copy)]
pub struct Ports {
    pub taken: Port,
    pub told: Port,
}

// A block's end, and whether all of it was written.
#[derive(Clone, Copy)]
struct Passed {
    progress: Progress,
    written: bool,
}

// What a read leaves: how far the scan has come, the bytes kept at the buffer's front, and whether to go on.
#[derive(Clone, Copy)]
struct Fed {
    progress: Progress,
    kept: usize,
    more: bool,
}

// Writes all the bytes. A failure of standard output is said on standard error.
fn give(rt: &HostRuntime, port: Port, bytes: &[u8]) -> bool {
    match port {
        Port::Output => streams::write_all(rt, bytes),
        Port::Errors => tell(rt, port, bytes),
    }
}

// The end of the report.
fn say_end(rt: &HostRuntime, port: Port, p: Progress) -> bool
    requires { Counts p }
{
    let mut out = [0u8; END_ROOM];
    let n = put_end(&mut out, p);
    give(rt, port, &out[..n])
}

// A block, with what it takes and what is told of it written.
fn pass_on(rt: &HostRuntime, p: Progress, window: &[u8], over: bool, ports: Ports) -> Passed
    requires { Counts p × ((length window.now ≤ block_room) × (p.place + length window.now < 2 ^ 64)) }
    ensures { Passes window.now over p result.progress }
{
    let block = scan_block(window, over, p);
    let area = block.area;
    let at = block.at;
    let told = block.told;
    let said = block.said;
    let progress = block.progress;
    let written = give(rt, ports.taken, &area[..at]) && give(rt, ports.told, &told[..said]);
    Passed { progress, written }
}

// Nothing more is read.
fn ended(progress: Progress) -> Fed
    ensures { (result.more ≡ false) × (result.progress ≡ progress) }
{
    Fed {
        progress,
        kept: 0,
        more: false,
    }
}

// What is decided of the bytes up to `filled`, and what is left moved to the front. Counts end with the 64-bit numbers, where no
// input does.
fn pass_filled(
    rt: &HostRuntime,
    progress: Progress,
    buffer: &mut [u8],
    filled: usize,
    ports: Ports,
) -> Fed
    requires { Counts progress × ((filled ≤ length buffer.old) × (length buffer.old ≤ block_room)) }
    ensures { (result.more ≡ true → result.kept < longest_notice) × Counts result.progress }
{
    let base = progress.place;
    if usize::MAX - filled < base {
        return ended(progress);
    }
    let passed = pass_on(rt, progress, &buffer[..filled], false, ports);
    let next = passed.progress;
    if passed.written {
        return Fed {
            progress: next,
            kept: compact(buffer, next.place - base, filled),
            more: true,
        };
    }
    ended(next)
}

// What is left at the end of the input, and the end of the report.
fn pass_last(rt: &HostRuntime, progress: Progress, window: &[u8], ports: Ports) -> Fed
    requires { Counts progress × (length window.now ≤ block_room) }
    ensures { (result.more ≡ false) × Counts result.progress }
{
    let base = progress.place;
    if usize::MAX - window.len() < base {
        return ended(progress);
    }
    let passed = pass_on(rt, progress, window, true, ports);
    let next = passed.progress;
    if passed.written {
        say_end(rt, ports.told, next);
    }
    ended(next)
}

// One read behind what is kept, and what is decided then. What is left is so short that the next read has room.
fn feed(rt: &HostRuntime, fed: Fed, buffer: &mut [u8], ports: Ports) -> Fed
    requires { Counts fed.progress × (length buffer.old ≤ block_room) }
    ensures { (result.more ≡ true → result.kept < longest_notice) × Counts result.progress }
{
    let progress = fed.progress;
    match refill(rt, buffer, fed.kept) {
        Some(Filled::More(n)) => pass_filled(rt, progress, buffer, n, ports),
        Some(Filled::Last(n)) => pass_last(rt, progress, &buffer[..n], ports),
        None => ended(progress),
    }
}

// Salvages standard input. A proved loop has to end, and nothing says that input does: the loop counts its turns, up to a
// number that no run uses up.
pub fn salvage_input(rt: &HostRuntime, ports: Ports) {
    let mut buffer = [0u8; BLOCK_ROOM];
    let mut fed = Fed {
        progress: begun(),
        kept: 0,
        more: true,
    };
    for _ in 0..u64::MAX {
        if !fed.more {
            break;
        }
        fed = feed(rt, fed, &mut buffer, ports);
    }
}
