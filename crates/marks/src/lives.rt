// The life of a title, from its opening to its end: a frame around its lanes, and a label with its film.

ghost use Rattle.std.specs.Prelude.{◌≤◌, ◌^◌, ◌≡◌, length};
ghost use Rattle.rules.specs.Limits.{count_max, id_max};
ghost use Rattle.text.specs.Pages.{Puts};
ghost use Rattle.strips.specs.Kept.{kept_length};
ghost use Rattle.marks.specs.Marks.{frame_text, sort_text, film_label, life_text, life_kept, life_label_text, life_label_kept};

use clocks::put_clock;
use drawing::pieces::{put_label, put_label_end, put_path, put_path_end, put_point, put_step};
use scheme::STEADY;
use story::Title;
use strips::kept::{LIFE_LABELS, LIVES, claim, kept_in};
use strips::lanes::{LANE_STEP, LANES_DOWN};
use strips::scale::{Band, end, place};
use text::page::Page;

// How far right and down a label stands, and the room that it takes.
const LABEL_RIGHT: u64 = 35;

const LABEL_DOWN: u64 = 120;

const LABEL_ROOM: u64 = 2_200;

fn put_frame(page: &mut Page<'_>, band: Band, t: Title, x: u64, end: u64)
    requires { t.film.cap ≤ count_max }
    ensures { Puts page.old (frame_text band t x end) page.new }
{
    let top = band.top as u64;
    let foot = top + LANES_DOWN + t.film.cap * LANE_STEP;
    put_path(page, b"axis");
    put_point(page, b'M', x, top);
    put_step(page, b'H', end);
    put_step(page, b'V', foot);
    put_step(page, b'H', x);
    put_step(page, b'V', top);
    put_path_end(page);
}

// The kind of a title's film.
fn put_sort(page: &mut Page<'_>, kind: u64)
    ensures { Puts page.old (sort_text kind) page.new }
{
    if kind == STEADY {
        page.put(b", skip-forward film of ");
    } else {
        page.put(b", film of ");
    }
}

fn put_film(page: &mut Page<'_>, band: Band, t: Title, x: u64)
    requires { x ≤ 2 ^ 33 }
    ensures { Puts page.old (film_label band t x) page.new }
{
    put_label(
        page,
        b"small",
        x + LABEL_RIGHT,
        band.top as u64 + LABEL_DOWN,
    );
    page.put(b"title ");
    page.put_number(band.id);
    put_sort(page, t.film.kind);
    put_clock(page, t.film.length);
    put_label_end(page);
}

// The frame of a life that ended at a time, where it is new.
pub fn put_life(page: &mut Page<'_>, kept: &mut [u64], band: Band, t: Title, time: u64)
    requires { (length kept.old ≡ kept_length) × ((band.id ≤ id_max) × (t.film.cap ≤ count_max)) }
    ensures written { Puts page.old (life_text band kept.old t time) page.new }
    ensures kept_after { kept.new ≡ life_kept band kept.old t time }
{
    let j = kept_in(band.id, LIVES);
    let scale = band.scale;
    let x = place(scale, t.opened);
    let right = end(scale, t.opened, time);
    if claim(kept, j, right, right) {
        put_frame(page, band, t, x, right);
    }
}

// Its label, where that has room.
pub fn put_life_label(page: &mut Page<'_>, kept: &mut [u64], band: Band, t: Title)
    requires { (length kept.old ≡ kept_length) × (band.id ≤ id_max) }
    ensures written { Puts page.old (life_label_text band kept.old t) page.new }
    ensures kept_after { kept.new ≡ life_label_kept band kept.old t }
{
    let j = kept_in(band.id, LIFE_LABELS);
    let scale = band.scale;
    let x = place(scale, t.opened);
    if claim(kept, j, x, x + LABEL_ROOM) {
        put_film(page, band, t, x);
    }
}
