// Marks in a row of ticks, from tick 0 of a title's opening on: 1 where a tick is an admission.

ghost use Rattle.std.specs.Prelude.{◌≡◌};
ghost use Rattle.grid.specs.Bounds.{CountCap};
ghost use Rattle.airing.specs.inner.Steps.{mark_in, marked_to, Markable};

use admissions::admitting;
use measures::ticks::tick_at;
use scheme::starts;
use story::Title;

// The mark of a tick while a title stays as it stands.
fn mark_in(t: Title, tick: u64) -> u8
    requires { CountCap t.count t.film.cap }
    ensures { result ≡ mark_in t tick }
{
    if admitting(t) && starts(t.film.kind, t.film.floor, t.film.cap, t.count, tick) {
        1
    } else {
        0
    }
}

// Marks the ticks from a title's latest event up to `upto`, as far as the row goes, as the title stands.
pub fn mark_to(t: Title, upto: u64, marks: &mut [u8])
    requires { Markable t }
    ensures { marks.new ≡ marked_to t upto marks.old }
{
    let end = upto.min(marks.len() as u64);
    for tick in tick_at(t, t.last)..end {
        marks[tick as usize] = mark_in(t, tick);
    }
}
