// How many cells a box keeps, tick by tick, as a step curve, and the most that it keeps.

ghost use Rattle.std.specs.Prelude.{◌≤◌, ◌≡◌, length, get_or};
ghost use Rattle.rules.specs.Limits.{plan_places};
ghost use Rattle.text.specs.Pages.{Puts};
ghost use Rattle.takings.specs.Takings.{kept_at};
ghost use Rattle.box_charts.specs.Curve.{kept_y, curve_to, kept_curve, peak_text};

use crate::axes::{KEPT_BOTTOM, KEPT_HEIGHT, KEPT_TOP, PLOT_RIGHT};
use drawing::axis::{PLOT_LEFT, part, x_of};
use drawing::pieces::{put_label, put_label_end, put_path, put_path_end, put_point, put_step};
use takings::{Peak, kept_at};
use text::page::Page;

// How high so many kept cells reach.
fn kept_y(most: u64, many: u64) -> u64
    ensures { result ≡ kept_y most many }
{
    KEPT_BOTTOM - part(KEPT_HEIGHT, most, many)
}

// The steps of the curve.
fn put_curve_steps(page: &mut Page<'_>, taken: &[u16], most: u64)
    requires { length taken.now ≤ plan_places }
    ensures { Puts page.old (curve_to (length taken.now) most (kept_at (λ c. get_or taken.now c 0) (length taken.now)) (length taken.now)) page.new }
{
    let cells = taken.len() as u64;
    for tick in 0..cells {
        let many = kept_at(taken, tick);
        put_step(page, b'V', kept_y(most, many));
        put_step(page, b'H', x_of(cells, tick + 1));
    }
}

pub fn put_curve(page: &mut Page<'_>, taken: &[u16], most: u64)
    requires { length taken.now ≤ plan_places }
    ensures { Puts page.old (kept_curve (length taken.now) most (kept_at (λ c. get_or taken.now c 0) (length taken.now))) page.new }
{
    put_path(page, b"curve");
    put_point(page, b'M', PLOT_LEFT, KEPT_BOTTOM);
    put_curve_steps(page, taken, most);
    put_step(page, b'V', KEPT_BOTTOM);
    put_path_end(page);
}

// The line of the most, and what it is.
pub fn put_peak(page: &mut Page<'_>, peak: Peak)
    ensures { Puts page.old (peak_text peak) page.new }
{
    let many = peak.many;
    let tick = peak.tick;
    put_path(page, b"limit");
    put_point(page, b'M', PLOT_LEFT, KEPT_TOP);
    put_step(page, b'H', PLOT_RIGHT);
    put_path_end(page);
    put_label(page, b"note", PLOT_LEFT + 60, KEPT_TOP - 80);
    page.put(b"cells kept: at most ");
    page.put_number(many);
    page.put(b", first in tick ");
    page.put_number(tick);
    put_label_end(page);
}
