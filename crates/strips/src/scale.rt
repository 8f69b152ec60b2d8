// Where a moment lies across the plot, in columns of some tenths of a pixel.

ghost use Rattle.std.specs.Prelude.{◌^◌, ◌≡◌};
ghost use Rattle.drawing.specs.Axis.{plot_left};
ghost use Rattle.grid.specs.Bounds.{Exactly};
ghost use Rattle.strips.specs.Scale.{place_across, end_across};

use drawing::axis::{PLOT_LEFT, part};
use measures::ticks::since;

// The first moment that is drawn, how many follow it, the plot's columns, and how many tenths of a pixel each has.
#[derive(Clone, Copy)]
pub struct Scale {
    pub first: u64,
    pub span: u64,
    pub columns: u16,
    pub grain: u16,
}

// The band of an id: its left upper corner is the plot's left edge and its top.
#[derive(Clone, Copy)]
pub struct Band {
    pub scale: Scale,
    pub id: u64,
    pub top: u32,
}

pub fn place(s: Scale, time: u64) -> u64
    ensures { Exactly (place_across s time) plot_left (2 ^ 33) result }
{
    PLOT_LEFT + part(s.columns, s.span, since(s.first, time)) * s.grain as u64
}

// The right end of what lasts from one moment to another.
pub fn end(s: Scale, from: u64, to: u64) -> u64
    ensures { Exactly (end_across s from to) plot_left (2 ^ 34) result }
{
    place(s, to).max(place(s, from) + s.grain as u64)
}
