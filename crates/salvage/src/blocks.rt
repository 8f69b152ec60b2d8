// One block of the input, scanned into rows of its own: what of it is taken, and what is told of it.

ghost use Rattle.std.specs.Prelude.{◌+◌, ◌≤◌, ◌<◌, ◌^◌, length};
ghost use Rattle.scanning.specs.inner.Steps.{Counts};
ghost use Rattle.salvage.specs.Blocks.{block_room, Blocks};
ghost use Rattle.salvage.specs.Walks.{Walks};

use notice::window::decided;
use salvage_lines::put_said;
use salvaging::rows::put_taken;
use scanning::steps::{Progress, advance};
use text::page::Page;

// The bytes of a block, and the room for what it takes: no more than it has.
pub const BLOCK_ROOM: usize = 4_096;

// The room for what is told of it: two lines of 70 bytes at most for a notice of 26 at least.
pub const TOLD_ROOM: usize = 6 * BLOCK_ROOM;

#[derive(Clone, Copy)]
pub struct Block {
    pub progress: Progress,
    pub area: [u8; BLOCK_ROOM],
    pub at: usize,
    pub told: [u8; TOLD_ROOM],
    pub said: usize,
}

// How far a window was scanned, and the places behind what that left in the area and told.
#[derive(Clone, Copy)]
struct Walked {
    progress: Progress,
    at: usize,
    said: usize,
}

// All that a window decides, from the place on at which it begins: the notices that are taken go to the start of an area, and what
// is told of them and of the stretches between them to the start of a row.
fn walk(window: &[u8], over: bool, p: Progress, area: &mut [u8], told: &mut [u8]) -> Walked
    requires { Counts p × (p.place + length window.now < 2 ^ 64) }
    ensures { Walks window.now over p result area.old told.old area.new told.new }
{
    let base = p.place;
    let mut progress = p;
    let mut at = 0;
    let mut said = 0;
    while progress.place - base < window.len() && decided(window, progress.place - base, over) {
        let next = advance(window, base, progress);
        at = put_taken(window, base, progress, next, area, at);
        let mut page = Page::from(told, said);
        put_said(&mut page, progress, next);
        said = page.end();
        progress = next;
    }
    Walked { progress, at, said }
}

// Scans what a window decides, in rows that have room for all of it.
pub fn scan_block(window: &[u8], over: bool, p: Progress) -> Block
    requires { Counts p × ((length window.now ≤ block_room) × (p.place + length window.now < 2 ^ 64)) }
    ensures { Blocks window.now over p result }
{
    let mut area = [0u8; BLOCK_ROOM];
    let mut told = [0u8; TOLD_ROOM];
    let walked = walk(window, over, p, &mut area, &mut told);
    Block {
        progress: walked.progress,
        area,
        at: walked.at,
        told,
        said: walked.said,
    }
}
