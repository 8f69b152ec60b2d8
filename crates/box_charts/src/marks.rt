// The marks of cells taken, and the line at which cells play.

ghost use Rattle.std.specs.Prelude.{◌-◌, ◌*◌, ◌≤◌, ◌<◌, max, ◌≡◌, length, get_or};
ghost use Rattle.rules.specs.Limits.{plan_places, lane_places};
ghost use Rattle.text.specs.Pages.{Puts};
ghost use Rattle.box_charts.specs.Marks.{plays_to, plays_text, mark_least, mark_area, taken_line, mark_text, mark_if, marks_to};

use crate::axes::{TAKEN_BOTTOM, y_of};
use drawing::axis::{PLOT_LEFT, x_of};
use drawing::pieces::{Area, put_path, put_path_end, put_point, put_rect, put_rect_end, put_step};
use rules::LANE_PLACES;
use text::page::Page;

// No mark is smaller.
const MARK_LEAST: u64 = 15;

// The steps of the line.
fn put_plays_steps(page: &mut Page<'_>, cells: u64)
    requires { cells ≤ plan_places }
    ensures { Puts page.old (plays_to cells cells) page.new }
{
    for cell in 0..cells {
        put_step(page, b'H', x_of(cells, cell + 1));
        put_step(page, b'V', y_of(cells, cell + 1));
    }
}

pub fn put_plays(page: &mut Page<'_>, cells: u64)
    requires { cells ≤ plan_places }
    ensures { Puts page.old (plays_text cells) page.new }
{
    put_path(page, b"plays");
    put_point(page, b'M', PLOT_LEFT, TAKEN_BOTTOM);
    put_plays_steps(page, cells);
    put_path_end(page);
}

// How far a mark goes that has a room, from a place on.
fn mark_size(from: u64, to: u64) -> u64
    ensures { result ≡ max (to - from) mark_least }
{
    to.saturating_sub(from).max(MARK_LEAST)
}

// The mark of a cell that is taken in a tick: it ends where the tick ends.
fn mark_area(cells: u64, tick: u64, cell: u64) -> Area
    requires { (tick < plan_places) × (cell < plan_places) }
    ensures { result ≡ mark_area cells tick cell }
{
    let end = x_of(cells, tick + 1);
    let width = mark_size(x_of(cells, tick), end);
    let top = y_of(cells, cell + 1);
    let height = mark_size(top, y_of(cells, cell));
    Area {
        x: end - width,
        y: top,
        width,
        height,
    }
}

// What hovering tells.
fn put_taken_line(page: &mut Page<'_>, place: u64, cell: u64)
    ensures { Puts page.old (taken_line place cell) page.new }
{
    let lanes = LANE_PLACES as u64;
    page.put(b"cell ");
    page.put_number(cell);
    page.put(b": taken in tick ");
    page.put_number(place / lanes);
    page.put(b" from lane ");
    page.put_number(place % lanes);
    page.put(b", plays in tick ");
    page.put_number(cell);
}

fn put_mark(page: &mut Page<'_>, cells: u64, place: u64, cell: u64)
    requires { (place < plan_places * lane_places) × (cell < plan_places) }
    ensures { Puts page.old (mark_text cells place cell) page.new }
{
    let lanes = LANE_PLACES as u64;
    let area = mark_area(cells, place / lanes, cell);
    put_rect(page, b"l", place % lanes, area);
    put_taken_line(page, place, cell);
    put_rect_end(page);
}

// A cell that is never taken has none.
fn put_mark_if(page: &mut Page<'_>, cells: u64, place: u64, cell: u64)
    requires { (cells ≤ plan_places) × (cell < plan_places) }
    ensures { Puts page.old (mark_if cells place cell) page.new }
{
    if place < cells * LANE_PLACES as u64 {
        put_mark(page, cells, place, cell);
    }
}

pub fn put_marks(page: &mut Page<'_>, taken: &[u16])
    requires { length taken.now ≤ plan_places }
    ensures { Puts page.old (marks_to (length taken.now) (λ c. get_or taken.now c 0) (length taken.now)) page.new }
{
    let cells = taken.len() as u64;
    for (cell, taking) in taken.iter().enumerate() {
        put_mark_if(page, cells, u64::from(*taking), cell as u64);
    }
}
