// Who shares the pool (02, 11 and 12): the titles that are open and not closing, with the rates of their ids. Skip-forward
// titles have no part in it, and what they hold while they are open is not shared.
//
// `rates_ok`, `floors` and `shared_pool` are what a caller tests before a sharing.
#![tactic(auto)]

pub mod rows;

ghost use Rattle.std.specs.Prelude.{◌≤◌, ◌≡◌, true};
ghost use Rattle.rules.specs.Limits.{floor_max, count_max};
ghost use Rattle.rules.specs.Refusals.{pick};
ghost use Rattle.story.specs.Kept.{numbers_ok, state_ok};
ghost use Rattle.sharers.specs.Sharers.{rates_ok, is_sharer, kept_apart, floors_of, shared_pool};

use measures::lanes::ruling;
use rules::{RATE_MAX, RATE_MIN, within};
use scheme::STEADY;
use story::{OPEN, State, Title};

// A title shares the pool while it is open and not closing; a skip-forward title never does.
pub fn takes_part(t: Title) -> bool
    ensures { result ≡ is_sharer t }
{
    t.mode == OPEN && t.film.kind != STEADY
}

// The floor of a title that takes part, 0 of another.
fn floor_of(t: Title) -> u64
    requires { numbers_ok t ≡ true }
    ensures { (result ≡ pick (is_sharer t) t.film.floor 0) × (result ≤ floor_max) }
{
    if takes_part(t) { t.film.floor } else { 0 }
}

// The lanes that a skip-forward title keeps to itself: its count until it closes.
fn kept_apart(t: Title) -> u64
    requires { t.count ≤ count_max }
    ensures { (result ≡ kept_apart t) × (result ≤ count_max) }
{
    if t.film.kind == STEADY {
        return ruling(t);
    }
    0
}

// Every rate of the row is within its limits, also of ids that take no part.
pub fn rates_ok(rates: &[u32]) -> bool
    ensures { result ≡ rates_ok rates.now }
{
    rates
        .iter()
        .all(|rate| within(RATE_MIN, RATE_MAX, u64::from(*rate)))
}

// The floors together of the titles that take part.
pub fn floors(s: State) -> u64
    requires { state_ok s ≡ true }
    ensures { result ≡ floors_of s }
{
    let mut sum = 0;
    for t in &s.titles {
        sum += floor_of(*t);
    }
    sum
}

// What is left of the pool to share: the open skip-forward titles keep their lanes.
pub fn shared_pool(s: State) -> u64
    requires { state_ok s ≡ true }
    ensures { result ≡ shared_pool s }
{
    let mut sum = 0;
    for t in &s.titles {
        sum += kept_apart(*t);
    }
    s.pool.saturating_sub(sum)
}
