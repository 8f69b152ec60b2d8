// Where things lie across the plot, and times marked on its axis.

ghost use Rattle.std.specs.Prelude.{◌+◌, ◌≤◌, ◌<◌, ◌≡◌};
ghost use Rattle.text.specs.Pages.{Puts};
ghost use Rattle.drawing.specs.Axis.{span_most, span_held, part_across, plot_left, plot_width, x_of, time_mark_text};

use crate::pieces::{put_label, put_label_end, put_path, put_path_end, put_point, put_step};
use clocks::put_clock;
use text::page::Page;

// The plot's left edge and width, the same in every picture.
pub const PLOT_LEFT: u64 = 900;

pub const PLOT_WIDTH: u16 = 12_000;

// No span is longer.
const SPAN_MOST: u64 = 4_398_046_511_104;

// A span that may be divided by.
fn held_span(span: u64) -> u64
    ensures { (result ≡ span_held span) × (0 < result) × (result ≤ span_most) }
{
    span.clamp(1, SPAN_MOST)
}

// The part of a whole that n of a span make, rounded down.
pub fn part(whole: u16, span: u64, n: u64) -> u64
    ensures { (result ≡ part_across whole span n) × (result ≤ whole) }
{
    let most = held_span(span);
    n.min(most) * whole as u64 / most
}

// Where n of a span lie across the plot.
pub fn x_of(span: u64, n: u64) -> u64
    ensures { (result ≡ x_of span n) × (plot_left ≤ result) × (result ≤ plot_left + plot_width) }
{
    PLOT_LEFT + part(PLOT_WIDTH, span, n)
}

// A mark down from a place, and below it a time.
pub fn put_time_mark(page: &mut Page<'_>, x: u64, y: u32, ms: u64)
    ensures { Puts page.old (time_mark_text x y ms) page.new }
{
    let top = y as u64;
    put_path(page, b"axis");
    put_point(page, b'M', x, top);
    put_step(page, b'V', top + 60);
    put_path_end(page);
    put_label(page, b"time", x, top + 190);
    put_clock(page, ms);
    put_label_end(page);
}
