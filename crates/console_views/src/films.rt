// What a title sends: its kind, the length of its film and its tick.

ghost use Rattle.std.specs.Prelude.{eqb};
ghost use Rattle.rules.specs.Refusals.{pick};
ghost use Rattle.scheme.specs.Scheme.{steady_kind};
ghost use Rattle.measures.specs.Readable.{Filmed};
ghost use Rattle.text.specs.Texts.{text};
ghost use Rattle.text.specs.Pages.{Puts};
ghost use Rattle.console_views.specs.Titles.{film_text};

use clocks::put_clock;
use scheme::STEADY;
use story::Title;
use text::page::Page;

fn put_kind(page: &mut Page<'_>, kind: u64)
    ensures { Puts page.old (pick (eqb kind steady_kind) (text ": skip-forward film of ") (text ": film of ")) page.new }
{
    if kind == STEADY {
        page.put(b": skip-forward film of ");
    } else {
        page.put(b": film of ");
    }
}

pub fn put_film(page: &mut Page<'_>, t: Title)
    requires { Filmed t.film }
    ensures { Puts page.old (film_text t) page.new }
{
    let tick = scheme::tick(t.film.kind, t.film.length, t.film.floor, t.film.cap);
    put_kind(page, t.film.kind);
    put_clock(page, t.film.length);
    page.put(b", tick ");
    put_clock(page, tick);
}
