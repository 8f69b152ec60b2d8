// The scan step by step, over a window of the input: all of it in memory, or a block of it.

ghost use Rattle.std.specs.Prelude.{◌≡◌, ◌+◌, ◌<◌, ◌^◌, length};
ghost use Rattle.scanning.specs.inner.Steps.{is_open_at, taking_notice, skipping, Counts, Within, Advances, fresh_progress};

use super::scan::{Move, look};

// How far a scan has come: its place in the input, the last taken notice, how many notices and bytes were taken, how many
// stretches skipped, and where the latest of these starts and how long it is.
#[derive(Clone, Copy)]
pub struct Progress {
    pub place: usize,
    pub last: Option<u32>,
    pub notices: usize,
    pub bytes: usize,
    pub stretches: usize,
    pub start: usize,
    pub size: usize,
}

// At the input's start.
pub fn begun() -> Progress
    ensures { result ≡ fresh_progress }
{
    Progress {
        place: 0,
        last: None,
        notices: 0,
        bytes: 0,
        stretches: 0,
        start: 0,
        size: 0,
    }
}

// Whether the latest stretch ends at the place, so that the next skipped byte joins it.
pub fn is_open(p: Progress) -> bool
    requires { Counts p }
    ensures { result ≡ is_open_at p }
{
    if p.stretches == 0 {
        return false;
    }
    p.start + p.size == p.place
}

// A notice is taken, up to its end.
fn take(p: Progress, sequence: u32, end: usize) -> Progress
    requires { Counts p × (p.place < end) }
    ensures { result ≡ taking_notice p sequence end }
{
    Progress {
        place: end,
        last: Some(sequence),
        notices: p.notices + 1,
        bytes: p.bytes + (end - p.place),
        stretches: p.stretches,
        start: p.start,
        size: p.size,
    }
}

// One byte is skipped: it joins the stretch that ends there, or starts one.
fn skip(p: Progress) -> Progress
    requires { Counts p × (p.place + 1 < 2 ^ 64) }
    ensures { result ≡ skipping p }
{
    let last = p.last;
    if is_open(p) {
        return Progress {
            place: p.place + 1,
            last,
            notices: p.notices,
            bytes: p.bytes,
            stretches: p.stretches,
            start: p.start,
            size: p.size + 1,
        };
    }
    Progress {
        place: p.place + 1,
        last,
        notices: p.notices,
        bytes: p.bytes,
        stretches: p.stretches + 1,
        start: p.place,
        size: 1,
    }
}

// One step, at a place that the window decides; the window begins at `base`.
pub fn advance(window: &[u8], base: usize, p: Progress) -> Progress
    requires { Counts p × Within (length window.now) base p }
    ensures { Advances window.now base p result }
{
    let place = p.place;
    let last = p.last;
    match look(window, place - base, last) {
        Move::Take(n, end) => take(p, n.sequence, base + end),
        Move::Skip => skip(p),
        Move::Stop => p,
    }
}
