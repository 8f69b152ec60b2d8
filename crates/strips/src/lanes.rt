// The rows of a title's lanes: a stretch of a lane is drawn when it ends.

ghost use Rattle.std.specs.Prelude.{◌≤◌, ◌<◌, ◌≡◌, length};
ghost use Rattle.rules.specs.Limits.{count_max, id_max};
ghost use Rattle.story.specs.Kept.{absent_mode};
ghost use Rattle.moments.specs.Searched.{Timed};
ghost use Rattle.text.specs.Pages.{Puts};
ghost use Rattle.strips.specs.Kept.{kept_length};
ghost use Rattle.strips.specs.Lanes.{
  lane_top,
  lowest_top,
  hover_text,
  tail_text,
  strip_text,
  ended_text,
  ended_kept,
  lane_mark,
  lane_kept,
  lanes_marks,
  lanes_kept,
};

use crate::kept::{LANES, SINCE, claim, kept_in};
use crate::scale::{Band, end, place};
use crate::states::{Stretch, stretch_of, switches};
use clocks::put_clock;
use drawing::pieces::{Area, put_path, put_path_end, put_point, put_rect, put_rect_end, put_step};
use measures::ticks::since;
use rules::COUNT_MAX;
use story::Title;
use text::page::Page;

// A band's first lane, from its top; from one lane to the next, and a lane's height.
pub const LANES_DOWN: u64 = 380;

pub const LANE_STEP: u64 = 90;

const LANE_HEIGHT: u64 = 76;

// The top of a lane's row.
fn lane_top(top: u32, lane: u64) -> u64
    requires { lane < count_max }
    ensures { (result ≡ lane_top top lane) × (result ≤ lowest_top) }
{
    top as u64 + LANES_DOWN + lane * LANE_STEP
}

// What hovering over a stretch tells.
fn put_told(page: &mut Page<'_>, lane: u64, s: Stretch)
    ensures { Puts page.old (hover_text lane s) page.new }
{
    page.put(b"lane ");
    page.put_number(lane);
    page.put(b", ");
    put_clock(page, s.from);
    page.put(b" to ");
    put_clock(page, s.to);
    match s.owed {
        None => page.put(b", active"),
        Some(cells) => {
            page.put(b", sending ");
            page.put_number(cells);
            page.put(b" cells");
        }
    }
}

// The mark at the end of what a lane sends.
fn put_tail(page: &mut Page<'_>, x: u64, y: u64)
    requires { y ≤ lowest_top }
    ensures { Puts page.old (tail_text x y) page.new }
{
    put_path(page, b"axis");
    put_point(page, b'M', x, y);
    put_step(page, b'V', y + LANE_HEIGHT);
    put_path_end(page);
}

// A stretch, from one place of a row to another.
fn put_strip(page: &mut Page<'_>, band: Band, lane: u64, x: u64, end: u64, s: Stretch)
    requires { lane < count_max }
    ensures { Puts page.old (strip_text band lane x end s) page.new }
{
    let y = lane_top(band.top, lane);
    let area = Area {
        x,
        y,
        width: since(x, end),
        height: LANE_HEIGHT,
    };
    if s.owed.is_some() {
        put_rect(page, b"s", band.id, area);
        put_told(page, lane, s);
        put_rect_end(page);
        put_tail(page, end, y);
    } else {
        put_rect(page, b"t", band.id, area);
        put_told(page, lane, s);
        put_rect_end(page);
    }
}

// A stretch that ends, if there is one, where its row is not drawn so far: behind what was drawn last.
fn put_ended(page: &mut Page<'_>, kept: &mut [u64], band: Band, lane: u64, stretch: Option<Stretch>)
    requires { (length kept.old ≡ kept_length) × ((band.id ≤ id_max) × (lane < count_max)) }
    ensures written { Puts page.old (ended_text band kept.old lane stretch) page.new }
    ensures kept_after { kept.new ≡ ended_kept band kept.old lane stretch }
{
    let Some(s) = stretch else {
        return;
    };
    let j = kept_in(band.id, LANES + lane);
    let scale = band.scale;
    let right = end(scale, s.from, s.to);
    let left = place(scale, s.from).max(kept[j]);
    if claim(kept, j, right, right) {
        put_strip(page, band, lane, left, right, s);
    }
}

// A lane of a title at an event that leaves it another ruling count: its stretch ends if it switches, or if all stretches do.
fn put_lane(
    page: &mut Page<'_>,
    kept: &mut [u64],
    band: Band,
    lane: u64,
    t: Title,
    count: u64,
    over: bool,
    time: u64,
)
    requires timed { (t.mode ≡ absent_mode → ⊥) → Timed t }
    requires kept_len { (length kept.old ≡ kept_length) × ((band.id ≤ id_max) × (lane < count_max)) }
    ensures written { Puts page.old (lane_mark band kept.old t count over time lane) page.new }
    ensures kept_after { kept.new ≡ lane_kept band kept.old t count over time lane }
{
    let j = kept_in(band.id, SINCE + lane);
    let s = stretch_of(t, lane, kept[j], time);
    if switches(t, count, lane) {
        put_ended(page, kept, band, lane, s);
        kept[j] = time;
    } else if over {
        put_ended(page, kept, band, lane, s);
    }
}

// All lanes of a title.
pub fn put_lanes(
    page: &mut Page<'_>,
    kept: &mut [u64],
    band: Band,
    t: Title,
    count: u64,
    over: bool,
    time: u64,
)
    requires timed { (t.mode ≡ absent_mode → ⊥) → Timed t }
    requires kept_len { (length kept.old ≡ kept_length) × (band.id ≤ id_max) }
    ensures written { Puts page.old (lanes_marks band kept.old t count over time count_max) page.new }
    ensures kept_after { kept.new ≡ lanes_kept band kept.old t count over time count_max }
{
    for lane in 0..COUNT_MAX {
        put_lane(page, kept, band, lane, t, count, over, time);
    }
}
