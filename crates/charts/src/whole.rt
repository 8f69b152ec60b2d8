// The whole picture, in columns of a width, and the finest in which it has room.

ghost use Rattle.std.specs.Prelude.{◌≡◌, true, length, replicate};
ghost use Rattle.rules.specs.Limits.{within, pool_min, pool_max};
ghost use Rattle.text.specs.Output.{Written};
ghost use Rattle.text.specs.Pages.{Puts};
ghost use Rattle.agent_rows.specs.Packed.{unpacked};
ghost use Rattle.row_calls.specs.inner.Steps.{Tested};
ghost use Rattle.strips.specs.Kept.{kept_length};
ghost use Rattle.spans.specs.Extents.{measure_of};
ghost use Rattle.charts.specs.Charts.{first_drawn, view_at, view_of, still_text, rest_text, marks_text, chart_text, coarser as coarserOf, finest_text, first_grain, first_columns, tries};

use agent_rows::{LAST_AT, ROW_LENGTH};
use curves::{Curve, put_curve};
use drawing::axis::{PLOT_LEFT, PLOT_WIDTH};
use drawing::document::{put_foot, put_head};
use frames::bands::{View, put_bands, top_of};
use frames::headings::{put_heading, put_legend, put_pool};
use frames::times::put_times;
use log_marks::ending::{put_all, put_cut};
use log_marks::playing::play;
use measures::ticks::since;
use rules::TITLES_MAX;
use spans::Outline;
use strips::kept::KEPT_LENGTH;
use strips::scale::Scale;
use text::page::Page;

// How far the curve's line of no lanes lies below the last band, and the room below and right of the plot.
const CURVE_DOWN: u32 = 1_200;

const FOOT_ROOM: u64 = 350;

const RIGHT_ROOM: u64 = 800;

// How often columns are made wider, and their widest.
const TRIES: u64 = 7;

const GRAIN_MOST: u16 = 128;

// The time of the first accepted event, or 0.
fn first_drawn(m: Outline) -> u64
    ensures { result ≡ first_drawn m }
{
    m.extent.first.unwrap_or(0)
}

// How a log is drawn, with the curve's line of no lanes at a place.
fn view_at(m: Outline, pool: u64, columns: u16, grain: u16, base: u32) -> View
    ensures { result ≡ view_at m pool columns grain base }
{
    let first = first_drawn(m);
    let caps = m.extent.caps;
    let scale = Scale {
        first,
        span: since(first, m.end),
        columns,
        grain,
    };
    let curve = Curve { scale, pool, base };
    View { curve, caps }
}

// The same with the curve below the last band.
fn view_of(m: Outline, pool: u64, columns: u16, grain: u16) -> View
    ensures { result ≡ view_of m pool columns grain }
{
    let top = top_of(view_at(m, pool, columns, grain, 0), TITLES_MAX as u64);
    view_at(m, pool, columns, grain, top + CURVE_DOWN)
}

// What stands in every picture.
fn put_still(page: &mut Page<'_>, m: Outline, v: View)
    ensures { Puts page.old (still_text m v) page.new }
{
    let curve = v.curve;
    let scale = curve.scale;
    let base = curve.base;
    put_head(
        page,
        PLOT_LEFT + PLOT_WIDTH as u64 + RIGHT_ROOM,
        base as u64 + FOOT_ROOM,
    );
    put_heading(page, curve.pool, first_drawn(m), m.end);
    put_legend(page);
    put_bands(page, v);
    put_times(page, scale, base);
    put_pool(page, curve);
}

// What is left at a log's end, when its notices are drawn: the row of its agent is lent.
fn put_rest(page: &mut Page<'_>, kept: &mut [u64], m: Outline, v: View, row: &[u64], size: usize)
    requires { (length kept.old ≡ kept_length) × Tested row.now }
    ensures { Puts page.old (rest_text m v (unpacked row.now).state kept.old size) page.new }
{
    let curve = v.curve;
    let last = row[LAST_AT];
    put_cut(page, kept, m.stop, size);
    put_all(page, kept, v, row, m.end);
    put_curve(page, kept, curve, row, last, m.end);
}

// The marks of a log.
fn put_marks(page: &mut Page<'_>, m: Outline, v: View, pool: u64, log: &[u8])
    requires { within pool_min pool_max pool ≡ true }
    ensures { Puts page.old (marks_text m v pool log.now) page.new }
{
    let mut kept = [0; KEPT_LENGTH];
    let mut row = [0; ROW_LENGTH];
    play(page, &mut kept, v, &mut row, pool, log);
    put_rest(page, &mut kept, m, v, &row, log.len());
}

// The picture in columns of a width.
fn put_picture(page: &mut Page<'_>, m: Outline, pool: u64, log: &[u8], columns: u16, grain: u16)
    requires { (within pool_min pool_max pool ≡ true) × (m ≡ measure_of pool log.now) }
    ensures { Puts page.old (chart_text pool log.now columns grain) page.new }
{
    let v = view_of(m, pool, columns, grain);
    put_still(page, m, v);
    put_marks(page, m, v, pool, log);
    put_foot(page);
}

// Columns twice as wide, up to the widest.
fn coarser(grain: u16) -> u16
    ensures { result ≡ coarserOf grain }
{
    if grain < GRAIN_MOST {
        return grain * 2;
    }
    grain
}

// The picture in columns of a width, in a row that was cleared.
fn put_fresh(out: &mut [u8], m: Outline, pool: u64, log: &[u8], columns: u16, grain: u16) -> usize
    requires { (within pool_min pool_max pool ≡ true) × (m ≡ measure_of pool log.now) }
    ensures { Written (replicate (length out.old) 0) 0 (chart_text pool log.now columns grain) out.new result }
{
    out.fill(0);
    let mut page = Page::new(out);
    put_picture(&mut page, m, pool, log, columns, grain);
    page.end()
}

// The picture in the finest columns in which it has room.
pub fn put_finest(out: &mut [u8], m: Outline, pool: u64, log: &[u8]) -> usize
    requires { (within pool_min pool_max pool ≡ true) × (m ≡ measure_of pool log.now) }
    ensures { Written (replicate (length out.old) 0) 0
        (finest_text (length out.old) pool log.now first_columns first_grain tries) out.new result }
{
    let mut columns = PLOT_WIDTH;
    let mut grain = 1;
    let mut end = put_fresh(out, m, pool, log, columns, grain);
    for _tried in 0..TRIES {
        if end < out.len() {
            return end;
        }
        columns /= 2;
        grain = coarser(grain);
        end = put_fresh(out, m, pool, log, columns, grain);
    }
    end
}
