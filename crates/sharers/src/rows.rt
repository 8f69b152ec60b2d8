// The titles that share the pool, lowest id first, as the four rows that the sharing takes.

ghost use Rattle.std.specs.Prelude.{◌<◌, ◌≡◌, true, length};
ghost use Rattle.rules.specs.Limits.{titles_max};
ghost use Rattle.rules.specs.Refusals.{pick};
ghost use Rattle.story.specs.Kept.{numbers_ok, state_ok};
ghost use Rattle.sharers.specs.Sharers.{is_sharer};
ghost use Rattle.sharers.specs.Rows.{joined as joinedBy, rows_to};

use crate::takes_part;
use rules::TITLES_MAX;
use story::{State, Title};

// Of the first `many` places of each row, a title's numbers.
// kept: `sharing::share`, which is a call of C's too, takes a row of each number, and no heap gives a list of so many.
#[derive(Clone, Copy)]
pub struct Rows {
    pub many: usize,
    pub rates: [u32; TITLES_MAX],
    pub lengths: [u32; TITLES_MAX],
    pub floors: [u32; TITLES_MAX],
    pub caps: [u32; TITLES_MAX],
}

// A title joins the rows behind the others.
fn joined(q: Rows, t: Title, rate: u32) -> Rows
    requires { (q.many < titles_max) × (numbers_ok t ≡ true) }
    ensures { result ≡ joinedBy q t rate }
{
    let at = q.many;
    let mut r = q;
    r.many = at + 1;
    r.rates[at] = rate;
    r.lengths[at] = t.film.length as u32;
    r.floors[at] = t.film.floor as u32;
    r.caps[at] = t.film.cap as u32;
    r
}

// A title that takes part joins them, and no other does.
fn joined_if_part(q: Rows, t: Title, rate: u32) -> Rows
    requires { (q.many < titles_max) × (numbers_ok t ≡ true) }
    ensures { result ≡ pick (is_sharer t) (joinedBy q t rate) q }
{
    if takes_part(t) {
        return joined(q, t, rate);
    }
    q
}

// The rows of the titles that take part, with the rates of their ids.
pub fn rows_of(s: State, rates: &[u32]) -> Rows
    requires { (state_ok s ≡ true) × (length rates.now ≡ titles_max) }
    ensures { result ≡ rows_to s rates.now titles_max }
{
    let none = [0u32; TITLES_MAX];
    let mut q = Rows {
        many: 0,
        rates: none,
        lengths: none,
        floors: none,
        caps: none,
    };
    for (i, t) in s.titles.iter().enumerate() {
        q = joined_if_part(q, *t, rates[i]);
    }
    q
}
