// The picture of a box, over the places at which it takes its cells. These functions are for the crate above, and say in a `requires`
// what they build on; what has no room in the lent row is left out.
#![tactic(auto)]

pub mod axes;
pub mod curve;
pub mod heading;
pub mod marks;

ghost use Rattle.std.specs.Prelude.{◌≤◌, length, get_or};
ghost use Rattle.rules.specs.Limits.{plan_places, asked_max, length_max, count_max};
ghost use Rattle.text.specs.Pages.{Puts};
ghost use Rattle.box_charts.specs.Picture.{box_frame, drawn_text, box_drawing};

use axes::{put_frames, put_quarters};
use curve::{put_curve, put_peak};
use drawing::document::{put_foot, put_head};
use heading::{put_heading, put_lane_keys, put_meaning_line};
use marks::{put_marks, put_plays};
use takings::peak_of;
use text::page::Page;

const CHART_WIDTH: u64 = 13_600;

const CHART_HEIGHT: u64 = 9_300;

// A box that has begun: its title, the moment, the title's tick in ms and how many lanes it may have.
#[derive(Clone, Copy)]
pub struct Begun {
    pub title: u64,
    pub moment: u64,
    pub tick: u64,
    pub lanes: u64,
}

// What stands above the plots, and their frames.
fn put_frame(page: &mut Page<'_>, begun: Begun, cells: u64)
    requires { (begun.moment ≤ asked_max) × (begun.tick ≤ length_max) × (begun.lanes ≤ count_max) × (cells ≤ plan_places) }
    ensures { Puts page.old (box_frame begun cells) page.new }
{
    let title = begun.title;
    let moment = begun.moment;
    let tick = begun.tick;
    let lanes = begun.lanes;
    put_head(page, CHART_WIDTH, CHART_HEIGHT);
    put_heading(page, title, moment);
    put_meaning_line(page, cells, tick);
    put_lane_keys(page, lanes);
    put_quarters(page, moment, tick, cells);
    put_frames(page);
}

// What is drawn into them.
fn put_drawn(page: &mut Page<'_>, taken: &[u16])
    requires { length taken.now ≤ plan_places }
    ensures { Puts page.old (drawn_text (λ c. get_or taken.now c 0) (length taken.now)) page.new }
{
    let peak = peak_of(taken);
    let many = peak.many;
    put_plays(page, taken.len() as u64);
    put_marks(page, taken);
    put_curve(page, taken, many);
    put_peak(page, peak);
}

pub fn put_picture(page: &mut Page<'_>, begun: Begun, taken: &[u16])
    requires moment_le_asked_max { (begun.moment ≤ asked_max) × (begun.tick ≤ length_max) × (begun.lanes ≤ count_max) }
    requires taken_len_bound { length taken.now ≤ plan_places }
    ensures { Puts page.old (box_drawing begun (λ c. get_or taken.now c 0) (length taken.now)) page.new }
{
    put_frame(page, begun, taken.len() as u64);
    put_drawn(page, taken);
    put_foot(page);
}
