// What the sharing of the pool gives to each title, by its id.

ghost use Rattle.std.specs.Prelude.{◌+◌, ◌≤◌, ◌<◌, ◌≡◌, true, length};
ghost use Rattle.rules.specs.Limits.{titles_max};
ghost use Rattle.rules.specs.Refusals.{pick};
ghost use Rattle.story.specs.Kept.{state_ok};
ghost use Rattle.sharers.specs.Sharers.{is_sharer, rates_ok, floors_of, shared_pool};
ghost use Rattle.sharers.specs.Rows.{FullRows};
ghost use Rattle.wishes.specs.Shares.{counts_of, shares_to, ByShare};

use rules::TITLES_MAX;
use sharers::rows::{Rows, rows_of};
use sharers::{shared_pool, takes_part};
use story::{State, Title};

// The counts that the sharing writes, in the order of the rows.
fn shared_counts(pool: u64, q: Rows) -> [u32; TITLES_MAX]
    requires { FullRows q }
    ensures { result ≡ counts_of pool q }
{
    let n = q.many;
    let rates = q.rates;
    let lengths = q.lengths;
    let floors = q.floors;
    let caps = q.caps;
    let mut counts = [0u32; TITLES_MAX];
    sharing::share(
        pool,
        &rates[..n],
        &lengths[..n],
        &floors[..n],
        &caps[..n],
        &mut counts,
    );
    counts
}

// The place behind a title among those that take part.
fn place_behind(place: usize, t: Title) -> usize
    requires { place < titles_max }
    ensures { result ≡ place + pick (is_sharer t) 1 0 }
{
    if takes_part(t) { place + 1 } else { place }
}

// Counts in the order of the titles that take part, put at their ids.
fn by_id(s: State, counts: &[u32; TITLES_MAX]) -> [u64; TITLES_MAX]
    ensures { result ≡ shares_to s counts.now titles_max }
{
    let mut row = [0u64; TITLES_MAX];
    let mut place = 0;
    for (i, t) in s.titles.iter().enumerate() {
        row[i] = u64::from(counts[place]);
        place = place_behind(place, *t);
    }
    row
}

// The share of each title that takes part, at its id.
pub fn shares_of(s: State, rates: &[u32]) -> [u64; TITLES_MAX]
    requires s_value { state_ok s ≡ true }
    requires rates_len { (length rates.now ≡ titles_max) × ((rates_ok rates.now ≡ true) × (floors_of s ≤ shared_pool s)) }
    ensures { ByShare s rates.now result }
{
    let counts = shared_counts(shared_pool(s), rows_of(s, rates));
    by_id(s, &counts)
}
