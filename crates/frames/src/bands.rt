// The bands of a picture, one below the other: an id that was never opened has none.

ghost use Rattle.std.specs.Prelude.{◌+◌, ◌*◌, ◌≤◌, ◌<◌, ◌≡◌};
ghost use Rattle.rules.specs.Limits.{id_max, titles_max};
ghost use Rattle.grid.specs.Bounds.{Exactly};
ghost use Rattle.text.specs.Pages.{Puts};
ghost use Rattle.frames.specs.Bands.{lanes_height, band_height, height_most, bands_top, top_of, band_of, band_text, bands_text};

use curves::Curve;
use drawing::axis::{PLOT_LEFT, PLOT_WIDTH};
use drawing::pieces::{Area, put_label, put_label_end, put_rect, put_rect_end};
use rules::TITLES_MAX;
use strips::lanes::{LANE_STEP, LANES_DOWN};
use strips::scale::Band;
use text::page::Page;

// How a log is drawn: its curve, with the scale, and of each id the lanes that have a row.
#[derive(Clone, Copy)]
pub struct View {
    pub curve: Curve,
    pub caps: [u8; TITLES_MAX],
}

// Where the first band begins, and how much room is left below one.
const BANDS_TOP: u32 = 800;

const BAND_GAP: u64 = 100;

// How high a band with rows for so many lanes is.
fn lanes_height(cap: u8) -> u64
    ensures { (result ≡ lanes_height cap) × (result ≤ height_most) }
{
    LANES_DOWN + cap as u64 * LANE_STEP
}

// The same with the room below it.
fn band_height(cap: u8) -> u64
    ensures { Exactly (band_height cap) 0 height_most result }
{
    if cap == 0 {
        return 0;
    }
    lanes_height(cap) + BAND_GAP
}

// Where the band of an id begins, or for one more than the last id the end of all.
pub fn top_of(v: View, n: u64) -> u32
    requires { n ≤ titles_max }
    ensures { (result ≡ top_of v n) × (result ≤ bands_top + titles_max * height_most) }
{
    let mut top = BANDS_TOP as u64;
    for id in 0..n {
        top += band_height(v.caps[id as usize]);
    }
    top as u32
}

pub fn band_of(v: View, id: u64) -> Band
    requires { id ≤ id_max }
    ensures { result ≡ band_of v id }
{
    Band {
        scale: v.curve.scale,
        id,
        top: top_of(v, id),
    }
}

// The background of an id's band, with its number.
fn put_band(page: &mut Page<'_>, v: View, id: u64)
    requires { id ≤ id_max }
    ensures { Puts page.old (band_text v id) page.new }
{
    let cap = v.caps[id as usize];
    let top = top_of(v, id) as u64;
    if cap != 0 {
        let area = Area {
            x: PLOT_LEFT,
            y: top,
            width: PLOT_WIDTH as u64,
            height: lanes_height(cap),
        };
        put_rect(page, b"b", 0, area);
        page.put(b"title ");
        page.put_number(id);
        put_rect_end(page);
        put_label(page, b"small right", PLOT_LEFT - 50, top + LANES_DOWN + 80);
        page.put(b"title ");
        page.put_number(id);
        put_label_end(page);
    }
}

pub fn put_bands(page: &mut Page<'_>, v: View)
    ensures { Puts page.old (bands_text v titles_max) page.new }
{
    for id in 0..TITLES_MAX as u64 {
        put_band(page, v, id);
    }
}
