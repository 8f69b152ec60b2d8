// Refused notices, in a row of their own.

ghost use Rattle.std.specs.Prelude.{◌≤◌, ◌^◌, ◌≡◌, length};
ghost use Rattle.drawing.specs.Axis.{plot_left};
ghost use Rattle.grid.specs.Bounds.{Exactly};
ghost use Rattle.text.specs.Pages.{Puts};
ghost use Rattle.strips.specs.Kept.{kept_length};
ghost use Rattle.marks.specs.Marks.{
  refused_place,
  refusal_area,
  refused_mark,
  broken_mark,
  refused_kept,
  refused_label,
  refused_label_kept,
};

use crate::notices::put_notice;
use drawing::axis::PLOT_LEFT;
use drawing::pieces::{Area, put_label, put_label_end, put_rect, put_rect_end};
use measures::ticks::since;
use notice::Notice;
use rules::MALFORMED;
use strips::kept::{REFUSAL_LABELS, REFUSALS, claim};
use strips::scale::{Scale, place};
use text::page::Page;
use words::put_meaning;

// A mark's top, width and height; how far right its label stands, how far down, and the room that it takes.
const MARK_TOP: u64 = 560;

const MARK_WIDTH: u64 = 14;

const MARK_HEIGHT: u64 = 120;

const LABEL_RIGHT: u64 = 25;

const LABEL_TOP: u64 = 660;

const LABEL_ROOM: u64 = 200;

// Where a notice's time is drawn: at the left edge where it lies outside what is drawn.
pub fn place_of(scale: Scale, time: u64) -> u64
    ensures { Exactly (refused_place scale time) plot_left (2 ^ 33) result }
{
    if scale.first <= time && since(scale.first, time) <= scale.span {
        return place(scale, time);
    }
    PLOT_LEFT
}

fn area_at(x: u64) -> Area
    ensures { result ≡ refusal_area x }
{
    Area {
        x,
        y: MARK_TOP,
        width: MARK_WIDTH,
        height: MARK_HEIGHT,
    }
}

// A refused notice.
pub fn put_refused(page: &mut Page<'_>, kept: &mut [u64], x: u64, n: Notice, answer: u8)
    requires { (length kept.old ≡ kept_length) × (x ≤ 2 ^ 33) }
    ensures written { Puts page.old (refused_mark x kept.old n answer) page.new }
    ensures kept_after { kept.new ≡ refused_kept x kept.old }
{
    if claim(kept, REFUSALS, x + 1, x + 1) {
        put_rect(page, b"r", answer as u64, area_at(x));
        put_notice(page, n, answer);
        put_rect_end(page);
    }
}

// Bytes that are no notice.
pub fn put_broken(page: &mut Page<'_>, kept: &mut [u64])
    requires { length kept.old ≡ kept_length }
    ensures written { Puts page.old (broken_mark kept.old) page.new }
    ensures kept_after { kept.new ≡ refused_kept plot_left kept.old }
{
    if claim(kept, REFUSALS, PLOT_LEFT + 1, PLOT_LEFT + 1) {
        put_rect(page, b"r", MALFORMED as u64, area_at(PLOT_LEFT));
        put_meaning(page, MALFORMED);
        put_rect_end(page);
    }
}

// A refusal's number, where that has room.
pub fn put_number_at(page: &mut Page<'_>, kept: &mut [u64], x: u64, answer: u8)
    requires { (length kept.old ≡ kept_length) × (x ≤ 2 ^ 33) }
    ensures written { Puts page.old (refused_label x kept.old answer) page.new }
    ensures kept_after { kept.new ≡ refused_label_kept x kept.old }
{
    if claim(kept, REFUSAL_LABELS, x + 1, x + LABEL_ROOM) {
        put_label(page, b"note", x + LABEL_RIGHT, LABEL_TOP);
        page.put_number(answer as u64);
        put_label_end(page);
    }
}
