// What comes next of a title that is open: whether a box may begin, the next slot start, and from when on its count may
// change.

ghost use Rattle.std.specs.Prelude.{◌≤◌, ◌≡◌};
ghost use Rattle.rules.specs.Limits.{asked_max};
ghost use Rattle.measures.specs.Readable.{Filmed};
ghost use Rattle.text.specs.Pages.{Puts};
ghost use Rattle.console_views.specs.Titles.{slot_from, doors_text, settled_text, coming_text};

use clocks::put_clock;
use measures::ticks::settled_at;
use moments::starts::next_start;
use scheme::STEADY;
use story::{HELD, OPEN, Title};
use text::page::Page;

fn put_doors(page: &mut Page<'_>, t: Title)
    ensures { Puts page.old (doors_text t) page.new }
{
    if t.mark == HELD {
        page.put(b", doors held");
    } else {
        page.put(b", doors open");
    }
}

// The first slot start of its count from a time on.
fn slot_from(t: Title, time: u64) -> u64
    requires filmed { Filmed t.film }
    requires count_le_cap { (t.count ≤ t.film.cap) × (time ≤ asked_max) }
    ensures { result ≡ slot_from t time }
{
    next_start(t, t.count, time)
}

fn put_settled(page: &mut Page<'_>, t: Title)
    requires filmed { Filmed t.film }
    requires tuned_le_asked_max { t.tuned ≤ asked_max }
    ensures { Puts page.old (settled_text t) page.new }
{
    if t.film.kind == STEADY {
        page.put(b", no change");
    } else {
        page.put(b", change from ");
        put_clock(page, settled_at(t));
    }
}

pub fn put_coming(page: &mut Page<'_>, t: Title, time: u64)
    requires filmed { Filmed t.film }
    requires count_le_cap { (t.count ≤ t.film.cap) × ((t.tuned ≤ asked_max) × (time ≤ asked_max)) }
    ensures { Puts page.old (coming_text t time) page.new }
{
    if t.mode == OPEN {
        put_doors(page, t);
        page.put(b", next slot start ");
        put_clock(page, slot_from(t, time));
        put_settled(page, t);
    }
}
