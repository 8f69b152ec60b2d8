// From standard input to standard output, for input of any length. What was read is kept in a buffer; a place of it is listed
// once it is decided, so a notice may lie in two reads, and what is left moves to the buffer's front before the next read.
// A read or a write that fails is said on standard error and ends the listing: nothing more is read, and no line more written.
// No contract can say what is read and written: `drain` says the agent and the place that it leaves, and proofs/WholeLog that the
// lines of such steps are the log's listing.

ghost use Rattle.std.specs.Prelude.{◌≡◌, true, false, ◌≤◌, ◌<◌, length};
ghost use Rattle.notice.specs.Fields.{longest_notice};
ghost use Rattle.notice.specs.Decode.{read_at};
ghost use Rattle.listing_io.specs.Step.{Hears, Shows};
ghost use Rattle.listing_io.specs.Listing.{Drained};

use super::lines::LINE_ROOM;
use super::steps::{ListedStep, list_at};
use agent::{Agent, fresh_agent};
use notice::window::decided;
use streams::{Filled, refill};
use text::feed::compact;

// What a read leaves: the agent, the bytes kept at the buffer's front, and whether to go on.
#[derive(Clone, Copy)]
struct Fed {
    agent: Agent,
    kept: usize,
    more: bool,
}

// A step with its whole line.
#[derive(Clone, Copy)]
struct Shown {
    listed: ListedStep,
    row: [u8; LINE_ROOM],
}

// A step, and whether its line was written.
#[derive(Clone, Copy)]
struct Printed {
    listed: ListedStep,
    written: bool,
}

// Lists what stands at a place, in a row that has room for any line.
fn list_line(agent: Agent, bytes: &[u8], place: usize) -> Shown
    ensures { Shows agent (read_at bytes.now place) place result }
{
    let mut row = [0u8; LINE_ROOM];
    let listed = list_at(agent, bytes, place, &mut row);
    Shown { listed, row }
}

// Lists what stands at a place, and writes its line.
fn show(rt: &HostRuntime, agent: Agent, bytes: &[u8], place: usize) -> Printed
    ensures { Hears agent (read_at bytes.now place) place result.listed }
{
    let shown = list_line(agent, bytes, place);
    let listed = shown.listed;
    let row = shown.row;
    let size = listed.size;
    let written = streams::write_all(rt, &row[..size]);
    Printed { listed, written }
}

// Lists from the start on as long as places are decided and lines can be written.
fn drain(rt: &HostRuntime, agent: Agent, bytes: &[u8], over: bool) -> Printed
    ensures { Drained agent bytes.now over result }
{
    let mut listed = ListedStep {
        agent,
        place: 0,
        size: 0,
        more: true,
    };
    let mut written = true;
    while written && listed.more && decided(bytes, listed.place, over) {
        let printed = show(rt, listed.agent, bytes, listed.place);
        listed = printed.listed;
        written = printed.written;
    }
    Printed { listed, written }
}

// Nothing more is read.
fn ended(agent: Agent) -> Fed
    ensures { result.more ≡ false }
{
    Fed {
        agent,
        kept: 0,
        more: false,
    }
}

// The lines of what is decided of the bytes up to `filled`, and what is left moved to the front: it is shorter than the longest
// notice.
fn list_filled(rt: &HostRuntime, agent: Agent, buffer: &mut [u8], filled: usize, over: bool) -> Fed
    requires { filled ≤ length buffer.old }
    ensures { result.more ≡ true → result.kept < longest_notice }
{
    let printed = drain(rt, agent, &buffer[..filled], over);
    let listed = printed.listed;
    let next = listed.agent;
    if printed.written {
        return Fed {
            agent: next,
            kept: compact(buffer, listed.place, filled),
            more: listed.more,
        };
    }
    ended(next)
}

// One read behind what is kept, and the lines of what is decided then. What is left is so short that the next read has room.
fn feed(rt: &HostRuntime, fed: Fed, buffer: &mut [u8]) -> Fed
    ensures { result.more ≡ true → result.kept < longest_notice }
{
    let agent = fed.agent;
    match refill(rt, buffer, fed.kept) {
        Some(Filled::More(n)) => list_filled(rt, agent, buffer, n, false),
        Some(Filled::Last(n)) => list_filled(rt, agent, buffer, n, true),
        None => ended(agent),
    }
}

// Lists standard input as a fresh agent of a pool hears it. A proved loop has to end, and nothing says that input does: the
// loop counts its turns up to a number that no run reaches.
pub fn list_input(rt: &HostRuntime, pool: u64) {
    let mut buffer = [0u8; 4_096];
    let started = fresh_agent(pool);
    let agent = started.agent;
    let mut fed = Fed {
        agent,
        kept: 0,
        more: true,
    };
    for _ in 0..u64::MAX {
        if !fed.more {
            break;
        }
        fed = feed(rt, fed, &mut buffer);
    }
}
