// The tick marks of accepted notices, above the lanes of their title.

ghost use Rattle.std.specs.Prelude.{◌≤◌, ◌≡◌, length};
ghost use Rattle.rules.specs.Limits.{id_max};
ghost use Rattle.text.specs.Pages.{Puts};
ghost use Rattle.strips.specs.Kept.{kept_length};
ghost use Rattle.marks.specs.Marks.{tick_text, tick_kept, tick_label_text, tick_label_kept};

use crate::notices::{put_kind, put_notice};
use drawing::pieces::{Area, put_label, put_label_end, put_rect, put_rect_end};
use notice::{Notice, kind_number};
use rules::DONE;
use strips::kept::{EVENT_LABELS, EVENTS, claim, kept_in};
use strips::scale::{Band, end, place};
use text::page::Page;

// A mark's top, from the band's, its width and its height; how far right and down its label stands, and the room that this takes.
const TICK_DOWN: u64 = 170;

const TICK_WIDTH: u64 = 14;

const TICK_HEIGHT: u64 = 120;

const LABEL_RIGHT: u64 = 35;

const LABEL_DOWN: u64 = 270;

const LABEL_ROOM: u64 = 700;

// The mark, where it is new.
pub fn put_tick(page: &mut Page<'_>, kept: &mut [u64], band: Band, n: Notice)
    requires { (length kept.old ≡ kept_length) × (band.id ≤ id_max) }
    ensures written { Puts page.old (tick_text band kept.old n) page.new }
    ensures kept_after { kept.new ≡ tick_kept band kept.old n }
{
    let j = kept_in(band.id, EVENTS);
    let scale = band.scale;
    let kind = n.kind;
    let x = place(scale, n.time);
    let right = end(scale, n.time, n.time);
    if claim(kept, j, right, right) {
        let area = Area {
            x,
            y: band.top as u64 + TICK_DOWN,
            width: TICK_WIDTH,
            height: TICK_HEIGHT,
        };
        put_rect(page, b"e", kind_number(kind) as u64, area);
        put_notice(page, n, DONE);
        put_rect_end(page);
    }
}

// What the notice does, where that has room.
pub fn put_tick_label(page: &mut Page<'_>, kept: &mut [u64], band: Band, n: Notice)
    requires { (length kept.old ≡ kept_length) × (band.id ≤ id_max) }
    ensures written { Puts page.old (tick_label_text band kept.old n) page.new }
    ensures kept_after { kept.new ≡ tick_label_kept band kept.old n }
{
    let j = kept_in(band.id, EVENT_LABELS);
    let scale = band.scale;
    let kind = n.kind;
    let x = place(scale, n.time);
    if claim(kept, j, x, x + LABEL_ROOM) {
        put_label(
            page,
            b"small",
            x + LABEL_RIGHT,
            band.top as u64 + LABEL_DOWN,
        );
        put_kind(page, kind);
        put_label_end(page);
    }
}
