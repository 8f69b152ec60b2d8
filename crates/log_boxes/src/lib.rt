// The box that begins at a moment of a title, over its latest opening in a log: whether it may begin then, when it could at the earliest,
// and its picture. No public function has a `requires`.
#![tactic(auto)]

mod begin;
mod draw;

ghost use Rattle.text.specs.Output.{Written};
ghost use Rattle.text.specs.Pages.{Puts};
ghost use Rattle.std.specs.Prelude.{◌≡◌};
ghost use Rattle.log_boxes.specs.Box.{box_text, BeginsAt, is_now};

use begin::{answer_of, wait_of};
use draw::draw;
use playouts::lines::put_refused;
use rules::DONE;
use text::page::Page;

// What is told of a moment: the answer, whether an admission follows, from when on it is waited for, which is the opening at the earliest,
// and how long, in ms. Beside a refusal the others tell nothing.
#[derive(Clone, Copy)]
pub struct Beginning {
    pub answer: u8,
    pub follows: bool,
    pub from: u64,
    pub wait: u64,
}

// Refusals, in this order: 1 for a pool, a title or a moment outside its limits, 11 for a log with a malformed or cut notice in it, 3 for a
// title that was never opened in it, 1 for a box whose last tick begins past the last moment that may be asked about.
pub fn beginning_of(pool: u64, log: &[u8], title: u64, time: u64) -> Beginning
    ensures { BeginsAt pool log.now title time result }
{
    let answer = answer_of(pool, log, title, time);
    if answer == DONE {
        return wait_of(pool, log, title, time);
    }
    Beginning {
        answer,
        follows: false,
        from: 0,
        wait: 0,
    }
}

// Whether the admission that is told of is at the very moment.
pub fn is_now(found: Beginning, time: u64) -> bool
    ensures { result ≡ is_now found time }
{
    found.follows && found.from == time && found.wait == 0
}

// The picture of the box, nothing at a moment that is no admission, or the refusal's line.
fn put_found(page: &mut Page<'_>, pool: u64, log: &[u8], title: u64, time: u64)
    ensures { Puts page.old (box_text pool log.now title time) page.new }
{
    let found = beginning_of(pool, log, title, time);
    let answer = found.answer;
    if answer != DONE {
        put_refused(page, answer);
    } else if is_now(found, time) {
        draw(page, pool, log, title, time);
    }
}

// So it is written at the start of a lent row. What has no room is left out.
pub fn put_box(out: &mut [u8], pool: u64, log: &[u8], title: u64, time: u64) -> usize
    ensures { Written out.old 0 (box_text pool log.now title time) out.new result }
{
    let mut page = Page::new(out);
    put_found(&mut page, pool, log, title, time);
    page.end()
}
