// The area and the row of the call, filled in the log's order. What has no room is left out.

ghost use Rattle.std.specs.Prelude.{◌≡◌, ◌+◌, ◌<◌, ◌^◌, length};
ghost use Rattle.text.specs.Output.{page, puts};
ghost use Rattle.scanning.specs.Scan.{scan_of};
ghost use Rattle.scanning.specs.inner.Steps.{progress_of, Counts, Between, ending_stretch};
ghost use Rattle.salvaging.specs.Pours.{taken_in, Lays, Pours, Fills};

use notice::window::decided;
use scanning::steps::{Progress, advance, begun, is_open};
use text::output::{put, put_value};

// The places behind what was written into the area and into the row.
#[derive(Clone, Copy)]
struct Laid {
    at: usize,
    cells: usize,
}

// How far a window was scanned, and what that left in the area and the row.
#[derive(Clone, Copy)]
struct Poured {
    progress: Progress,
    to: Laid,
}

// The stretch that ends at the place, if one does.
fn put_ended(row: &mut [u64], at: usize, p: Progress) -> usize
    requires { Counts p }
    ensures { page row.new result ≡ puts (page row.old at) (ending_stretch p) }
{
    let start = p.start;
    let size = p.size;
    if is_open(p) {
        let a = put_value(row, at, start as u64);
        return put_value(row, a, size as u64);
    }
    at
}

// The notice that one step over a window took, if it took one.
pub fn put_taken(
    window: &[u8],
    base: usize,
    p: Progress,
    next: Progress,
    area: &mut [u8],
    at: usize,
) -> usize
    requires { Between (length window.now) base p next }
    ensures { page area.new result ≡ puts (page area.old at) (taken_in window.now base p next) }
{
    let from = p.place - base;
    let end = next.place - base;
    if p.notices < next.notices {
        return put(area, at, &window[from..end]);
    }
    at
}

// What one step over a window adds: a notice that was taken, and the stretch that ended before it.
fn lay(
    window: &[u8],
    base: usize,
    p: Progress,
    next: Progress,
    to: Laid,
    area: &mut [u8],
    row: &mut [u64],
) -> Laid
    requires { Counts p × Between (length window.now) base p next }
    ensures { Lays window.now base p next to result area.old row.old
        area.new row.new }
{
    let at = put_taken(window, base, p, next, area, to.at);
    let mut cells = to.cells;
    if p.notices < next.notices {
        cells = put_ended(row, cells, p);
    }
    Laid { at, cells }
}

// All that a window decides, from the place on at which it begins: the notices that are taken go to the start of an area, the
// stretches that end to the start of a row.
fn pour(window: &[u8], over: bool, p: Progress, area: &mut [u8], row: &mut [u64]) -> Poured
    requires { Counts p × (p.place + length window.now < 2 ^ 64) }
    ensures { Pours window.now over p result area.old row.old
        area.new row.new }
{
    let base = p.place;
    let mut progress = p;
    let mut to = Laid { at: 0, cells: 0 };
    while progress.place - base < window.len() && decided(window, progress.place - base, over) {
        let next = advance(window, base, progress);
        to = lay(window, base, progress, next, to, area, row);
        progress = next;
    }
    Poured { progress, to }
}

// How far the scan of all of a log comes. It pours into a place of its own of each, so that one loop serves both passes of the call.
pub fn measure(log: &[u8]) -> Progress
    ensures { result ≡ progress_of (scan_of log.now) }
{
    let mut area: [u8; 1] = [0];
    let mut row: [u64; 1] = [0];
    pour(log, true, begun(), &mut area, &mut row).progress
}

// All of a log.
pub fn fill(log: &[u8], area: &mut [u8], row: &mut [u64])
    ensures { Fills (scan_of log.now) area.old row.old
        area.new row.new }
{
    let poured = pour(log, true, begun(), area, row);
    let to = poured.to;
    let progress = poured.progress;
    put_ended(row, to.cells, progress);
}
