// Doors that are held: a strip above the lanes, drawn when it ends.

ghost use Rattle.std.specs.Prelude.{◌≤◌, ◌≡◌, length};
ghost use Rattle.rules.specs.Limits.{id_max};
ghost use Rattle.text.specs.Pages.{Puts};
ghost use Rattle.strips.specs.Kept.{kept_length};
ghost use Rattle.strips.specs.Doors.{held_text, held_kept, doors_mark, doors_kept};

use crate::kept::{DOORS, DOORS_SINCE, claim, kept_in};
use crate::scale::{Band, end, place};
use clocks::put_clock;
use drawing::pieces::{Area, put_rect, put_rect_end};
use measures::ticks::since;
use story::{HELD, Title};
use text::page::Page;

// The strip's top, from the band's, and its height.
const DOORS_DOWN: u64 = 300;

const DOORS_HEIGHT: u64 = 56;

// Doors that were held from one moment to another.
fn put_held(page: &mut Page<'_>, kept: &mut [u64], band: Band, from: u64, time: u64)
    requires { (length kept.old ≡ kept_length) × (band.id ≤ id_max) }
    ensures written { Puts page.old (held_text band kept.old from time) page.new }
    ensures kept_after { kept.new ≡ held_kept band kept.old from time }
{
    let j = kept_in(band.id, DOORS);
    let scale = band.scale;
    let x = place(scale, from);
    let right = end(scale, from, time);
    if claim(kept, j, right, right) {
        let area = Area {
            x,
            y: band.top as u64 + DOORS_DOWN,
            width: since(x, right),
            height: DOORS_HEIGHT,
        };
        put_rect(page, b"d", 0, area);
        page.put(b"doors held, ");
        put_clock(page, from);
        page.put(b" to ");
        put_clock(page, time);
        put_rect_end(page);
    }
}

// At an event, after which the doors of a title are held or not.
pub fn put_doors(page: &mut Page<'_>, kept: &mut [u64], band: Band, t: Title, held: bool, time: u64)
    requires { (length kept.old ≡ kept_length) × (band.id ≤ id_max) }
    ensures written { Puts page.old (doors_mark band kept.old t held time) page.new }
    ensures kept_after { kept.new ≡ doors_kept band kept.old t held time }
{
    let j = kept_in(band.id, DOORS_SINCE);
    let from = kept[j];
    if t.mark == HELD {
        if !held {
            put_held(page, kept, band, from, time);
        }
    } else if held {
        kept[j] = time;
    }
}
