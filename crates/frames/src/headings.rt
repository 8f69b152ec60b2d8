// The heading of a picture, and the lines of its curve.

ghost use Rattle.std.specs.Prelude.{◌<◌, ◌^◌};
ghost use Rattle.text.specs.Pages.{Puts};
ghost use Rattle.frames.specs.Headings.{heading_text, legend_text, across_text, pool_lines};

use clocks::put_clock;
use curves::{Curve, height};
use drawing::axis::{PLOT_LEFT, PLOT_WIDTH};
use drawing::pieces::{put_label, put_label_end, put_path, put_path_end, put_point, put_step};
use text::page::Page;

// What is drawn: the pool, and from when to when.
pub fn put_heading(page: &mut Page<'_>, pool: u64, first: u64, end: u64)
    ensures { Puts page.old (heading_text pool first end) page.new }
{
    put_label(page, b"head", PLOT_LEFT, 240);
    page.put(b"A pool of ");
    page.put_number(pool);
    page.put(b" lanes, ");
    put_clock(page, first);
    page.put(b" to ");
    put_clock(page, end);
    put_label_end(page);
}

// How marks are read, and where refusals stand.
pub fn put_legend(page: &mut Page<'_>)
    ensures { Puts page.old legend_text page.new }
{
    page.put(
        b"<text class='small' x='90.0' y='42.0'>filled: a lane is active; hatched: it sends what it owes; grey: doors held; red: a refused notice</text>\n\
        <text class='small right' x='85.0' y='66.0'>refused</text>\n",
    );
}

// A line across the plot.
fn put_across(page: &mut Page<'_>, class: &[u8], y: u64)
    ensures { Puts page.old (across_text class.now y) page.new }
{
    put_path(page, class);
    put_point(page, b'M', PLOT_LEFT, y);
    put_step(page, b'H', PLOT_LEFT + PLOT_WIDTH as u64);
    put_path_end(page);
}

// The lines of no lanes and of the pool.
pub fn put_pool(page: &mut Page<'_>, c: Curve)
    ensures { Puts page.old (pool_lines c) page.new }
{
    let base = c.base as u64;
    let top = height(c, c.pool);
    put_across(page, b"axis", base);
    put_across(page, b"limit", top);
    put_label(page, b"small right", PLOT_LEFT - 50, base);
    page.put(b"lanes held");
    put_label_end(page);
    put_label(page, b"small right", PLOT_LEFT - 50, top);
    page.put(b"pool ");
    page.put_number(c.pool);
    put_label_end(page);
}
