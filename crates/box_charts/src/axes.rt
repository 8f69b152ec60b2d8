// The two plots of a box's picture: their frames, and at each quarter of the box's ticks the tick, the cell and the time.

ghost use Rattle.std.specs.Prelude.{◌≤◌, ◌≡◌};
ghost use Rattle.rules.specs.Limits.{plan_places, asked_max, length_max};
ghost use Rattle.text.specs.Pages.{Puts};
ghost use Rattle.box_charts.specs.Axes.{taken_top, taken_bottom, y_of, frames_text, quarter_line, quarter_marks, quarters_text};

use drawing::axis::{PLOT_LEFT, part, put_time_mark, x_of};
use drawing::pieces::{put_label, put_label_end, put_path, put_path_end, put_point, put_step};
use text::page::Page;

// The plot of cells taken, and below it that of cells kept.
pub const TAKEN_TOP: u64 = 1_000;

pub const TAKEN_HEIGHT: u16 = 5_600;

pub const TAKEN_BOTTOM: u64 = 6_600;

pub const KEPT_TOP: u64 = 7_400;

pub const KEPT_HEIGHT: u16 = 1_500;

pub const KEPT_BOTTOM: u64 = 8_900;

pub const PLOT_RIGHT: u64 = 12_900;

// How high the first c of n cells reach.
pub fn y_of(n: u64, c: u64) -> u64
    ensures { (result ≡ y_of n c) × (taken_top ≤ result) × (result ≤ taken_bottom) }
{
    TAKEN_BOTTOM - part(TAKEN_HEIGHT, n, c)
}

// Both frames, left and below, and what is counted upwards.
pub fn put_frames(page: &mut Page<'_>)
    ensures { Puts page.old frames_text page.new }
{
    put_path(page, b"axis");
    put_point(page, b'M', PLOT_LEFT, TAKEN_TOP);
    put_step(page, b'V', TAKEN_BOTTOM);
    put_step(page, b'H', PLOT_RIGHT);
    put_point(page, b'M', PLOT_LEFT, KEPT_TOP);
    put_step(page, b'V', KEPT_BOTTOM);
    put_step(page, b'H', PLOT_RIGHT);
    put_path_end(page);
    put_label(page, b"right", PLOT_LEFT - 80, TAKEN_TOP - 140);
    page.put(b"cell");
    put_label_end(page);
}

// A line through both plots, and the tick between them.
fn put_quarter_line(page: &mut Page<'_>, cells: u64, quarter: u64)
    requires { (cells ≤ plan_places) × (quarter ≤ 4) }
    ensures { Puts page.old (quarter_line cells quarter) page.new }
{
    let x = x_of(4, quarter);
    put_path(page, b"grid");
    put_point(page, b'M', x, TAKEN_TOP);
    put_step(page, b'V', KEPT_BOTTOM);
    put_path_end(page);
    put_label(page, b"time", x, TAKEN_BOTTOM + 200);
    page.put(b"tick ");
    page.put_number(cells * quarter / 4);
    put_label_end(page);
}

// The cell at the left, and below all the time.
fn put_quarter_marks(page: &mut Page<'_>, moment: u64, tick: u64, cells: u64, quarter: u64)
    requires moment_le_asked_max { (moment ≤ asked_max) × (tick ≤ length_max) }
    requires cells_le_plan_places { (cells ≤ plan_places) × (quarter ≤ 4) }
    ensures { Puts page.old (quarter_marks moment tick cells quarter) page.new }
{
    let n = cells * quarter / 4;
    put_label(page, b"right", PLOT_LEFT - 80, y_of(4, quarter) + 40);
    page.put_number(n);
    put_label_end(page);
    put_time_mark(
        page,
        x_of(4, quarter),
        KEPT_BOTTOM as u32,
        moment + n * tick,
    );
}

pub fn put_quarters(page: &mut Page<'_>, moment: u64, tick: u64, cells: u64)
    requires { (moment ≤ asked_max) × (tick ≤ length_max) × (cells ≤ plan_places) }
    ensures { Puts page.old (quarters_text moment tick cells 5) page.new }
{
    for quarter in 0..5 {
        put_quarter_line(page, cells, quarter);
        put_quarter_marks(page, moment, tick, cells, quarter);
    }
}
