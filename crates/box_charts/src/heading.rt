// What stands above a box's picture.

ghost use Rattle.std.specs.Prelude.{◌≤◌};
ghost use Rattle.rules.specs.Limits.{count_max};
ghost use Rattle.text.specs.Pages.{Puts};
ghost use Rattle.box_charts.specs.Heading.{box_heading, meaning_line, lane_name, lane_key, lane_keys};

use clocks::put_clock;
use drawing::axis::PLOT_LEFT;
use drawing::pieces::{Area, put_label, put_label_end, put_rect, put_rect_end};
use text::page::Page;

// The keys of the lanes stand so far apart.
const KEY_STEP: u64 = 950;

pub fn put_heading(page: &mut Page<'_>, title: u64, moment: u64)
    ensures { Puts page.old (box_heading title moment) page.new }
{
    put_label(page, b"head", PLOT_LEFT, 360);
    page.put(b"Title ");
    page.put_number(title);
    page.put(b": the box that begins at ");
    put_clock(page, moment);
    put_label_end(page);
}

// What the marks mean.
pub fn put_meaning_line(page: &mut Page<'_>, cells: u64, tick: u64)
    ensures { Puts page.old (meaning_line cells tick) page.new }
{
    put_label(page, b"small", PLOT_LEFT, 570);
    page.put_number(cells);
    page.put(b" cells, one plays in each tick of ");
    page.put_number(tick);
    page.put(
        b" ms. A mark: the tick in which a cell is taken, in the shade of its lane. The line: the tick in which it plays.",
    );
    put_label_end(page);
}

fn put_lane_name(page: &mut Page<'_>, lane: u64)
    ensures { Puts page.old (lane_name lane) page.new }
{
    page.put(b"lane ");
    page.put_number(lane);
}

// The shade of a lane, and its name.
fn put_lane_key(page: &mut Page<'_>, lane: u64)
    requires { lane ≤ count_max }
    ensures { Puts page.old (lane_key lane) page.new }
{
    let x = PLOT_LEFT + lane * KEY_STEP;
    let area = Area {
        x,
        y: 690,
        width: 140,
        height: 140,
    };
    put_rect(page, b"l", lane, area);
    put_lane_name(page, lane);
    put_rect_end(page);
    put_label(page, b"small", x + 190, 800);
    put_lane_name(page, lane);
    put_label_end(page);
}

pub fn put_lane_keys(page: &mut Page<'_>, lanes: u64)
    requires { lanes ≤ count_max }
    ensures { Puts page.old (lane_keys lanes) page.new }
{
    for lane in 0..lanes {
        put_lane_key(page, lane);
    }
}
