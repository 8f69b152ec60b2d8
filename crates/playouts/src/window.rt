// A window of ticks of a title's latest opening in a log: what is answered of it, what its lanes carry, and the text.

ghost use Rattle.std.specs.Prelude.{◌≡◌, true};
ghost use Rattle.text.specs.Pages.{Puts};
ghost use Rattle.airing.specs.Air.{in_limits};
ghost use Rattle.playouts.specs.Playout.{playout_limits};
ghost use Rattle.playouts.specs.Lines.{playout_text};
ghost use Rattle.playouts.specs.inner.Steps.{Opened, RowToFill, WholeTicks, Carries, title_answer, window_answer, printed_text};

use crate::cells::fill_to;
use crate::follow::{end_of, follow};
use crate::lines::{put_numbers, put_refused};
use measures::ticks::tick_at;
use rules::{ASKED_MAX, DONE, MALFORMED, NOT_THERE, OUTSIDE_LIMITS};
use story::Title;
use text::page::Page;

// What a log answers of a title as it stands at the log's end, and of a last tick.
fn standing_answer(place: usize, size: usize, t: Title, tick: u64) -> u8
    requires { Opened t }
    ensures { result ≡ title_answer place size t tick }
{
    let cap = t.film.cap;
    if place < size {
        return MALFORMED;
    }
    if cap == 0 {
        return NOT_THERE;
    }
    if tick_at(t, ASKED_MAX) < tick {
        return OUTSIDE_LIMITS;
    }
    DONE
}

// What a log answers of a title, and of a last tick.
pub fn window_answer(pool: u64, log: &[u8], title: u64, tick: u64) -> u8
    requires { in_limits pool title ≡ true }
    ensures { result ≡ window_answer pool log.now title tick }
{
    let end = end_of(pool, log, title);
    let t = end.title;
    standing_answer(end.place, log.len(), t, tick)
}

// The numbers of a window, where the log answers done: those up to the latest event as the log is played, and the rest as the title
// stands at its end.
pub fn fill(pool: u64, log: &[u8], title: u64, from: u64, ticks: u64, numbers: &mut [u16]) -> u8
    requires title_value { in_limits pool title ≡ true }
    requires row_to_fill { RowToFill from numbers.old }
    requires whole_ticks { WholeTicks ticks numbers.old }
    ensures { Carries pool log.now title from ticks numbers.old result numbers.new }
{
    let end = end_of(pool, log, title);
    let t = end.title;
    let answer = standing_answer(end.place, log.len(), t, from + ticks - 1);
    if answer == DONE {
        follow(pool, log, title, t.opened, from, numbers);
        fill_to(t, from, from + ticks, numbers);
    }
    answer
}

// The text of an answer and of numbers.
fn put_told(page: &mut Page<'_>, answer: u8, numbers: &[u16])
    ensures { Puts page.old (printed_text answer numbers.now) page.new }
{
    if answer == DONE {
        put_numbers(page, numbers);
    } else {
        put_refused(page, answer);
    }
}

// The text of a window, over lent numbers.
pub fn tell(
    page: &mut Page<'_>,
    pool: u64,
    log: &[u8],
    title: u64,
    from: u64,
    ticks: u64,
    numbers: &mut [u16],
)
    requires ticks_value { playout_limits pool title from ticks ≡ true }
    requires whole_ticks { WholeTicks ticks numbers.old }
    ensures { Puts page.old (playout_text pool log.now title from ticks) page.new }
{
    let answer = fill(pool, log, title, from, ticks, numbers);
    put_told(page, answer, numbers);
}
