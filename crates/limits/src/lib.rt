// The limits of every stored number (01, "Numbers that calls give back").
#![tactic(auto)]

ghost use Rattle.std.specs.Prelude.{◌≡◌, not, leb, eqb};
ghost use Rattle.rules.specs.Limits.{both, either, pool_min, titles_max, floor_max, steady_max};
ghost use Rattle.rules.specs.Refusals.{pick};
ghost use Rattle.rules.specs.Search.{every};
ghost use Rattle.scheme.specs.Scheme.{steady_kind};
ghost use Rattle.story.specs.Kept.{absent_mode, numbers_ok, order_ok, title_ok, slot_ok, state_ok};
ghost use Rattle.limits.specs.Stored.{kept_ok, rest_ok};

use rules::truth::row_within;
use rules::{
    ASKED_MAX, COUNT_MAX, COUNT_PLACES, FLOOR_MAX, FLOOR_MIN, LANE_PLACES, LENGTH_MAX, LENGTH_MIN,
    POOL_MAX, POOL_MIN, STEADY_MAX, TITLES_MAX, within,
};
use scheme::STEADY;
use story::{ABSENT, CLOSING, HELD, State, Title};

// The time of a title's latest opening or change, and its three rows.
fn kept_ok(t: Title) -> bool
    ensures { result ≡ kept_ok t }
{
    t.tuned <= ASKED_MAX
        && row_within(&t.ends, COUNT_PLACES, ASKED_MAX)
        && row_within(&t.dropped, LANE_PLACES, ASKED_MAX)
        && row_within(&t.owed, LANE_PLACES, ASKED_MAX)
}

// A floor up to the limit of its kind: that of a skip-forward title is its count.
pub fn floor_ok(kind: u64, floor: u64) -> bool
    ensures { result ≡ leb floor (pick (eqb kind steady_kind) steady_max floor_max) }
{
    if kind == STEADY {
        return floor <= STEADY_MAX;
    }
    floor <= FLOOR_MAX
}

// The upper limits of what events turn.
fn rest_ok(t: Title) -> bool
    ensures { result ≡ rest_ok t }
{
    t.film.cap <= COUNT_MAX
        && t.count <= COUNT_MAX
        && t.mark <= HELD
        && t.last <= ASKED_MAX
        && kept_ok(t)
}

// The upper limits, which hold for every slot.
#[tactic(auto, unfolding(story::specs::Kept::numbers_ok))]
fn numbers_ok(t: Title) -> bool
    ensures { result ≡ numbers_ok t }
{
    t.mode <= CLOSING
        && t.film.kind <= STEADY
        && t.opened <= ASKED_MAX
        && t.film.length <= LENGTH_MAX
        && floor_ok(t.film.kind, t.film.floor)
        && rest_ok(t)
}

// Floor and cap are one where the kind asks for it.
pub fn is_level(kind: u64, floor: u64, cap: u64) -> bool
    ensures { result ≡ either (not (eqb kind steady_kind)) (eqb floor cap) }
{
    kind != STEADY || floor == cap
}

// What holds besides for a title that is there: lower limits, and the order of floor, count and cap.
#[tactic(auto, unfolding(story::specs::Kept::order_ok))]
fn order_ok(t: Title) -> bool
    ensures { result ≡ order_ok t }
{
    LENGTH_MIN <= t.film.length
        && FLOOR_MIN <= t.film.floor
        && t.film.floor <= t.film.cap
        && within(t.film.floor, t.film.cap, t.count)
        && is_level(t.film.kind, t.film.floor, t.film.cap)
}

// The numbers of a title, there or not.
#[tactic(auto, unfolding(story::specs::Kept::title_ok))]
fn title_ok(t: Title) -> bool
    ensures { result ≡ title_ok t }
{
    numbers_ok(t) && (t.mode == ABSENT || order_ok(t))
}

// A title's slot, in a state with some pool: a pool of 0 has no titles.
fn slot_ok(pool: u64, t: Title) -> bool
    ensures { result ≡ both (title_ok t) (either (leb pool_min pool) (eqb t.mode absent_mode)) }
{
    title_ok(t) && (POOL_MIN <= pool || t.mode == ABSENT)
}

// The slots of a state.
fn slots_ok(s: State) -> bool
    ensures { result ≡ every (slot_ok s) titles_max }
{
    for i in 0..TITLES_MAX {
        if !slot_ok(s.pool, s.titles[i]) {
            return false;
        }
    }
    true
}

// Whether every stored number of a state is within its limits.
#[tactic(auto, unfolding(story::specs::Kept::state_ok))]
pub fn state_ok(s: State) -> bool
    ensures { result ≡ state_ok s }
{
    s.pool <= POOL_MAX && s.last <= ASKED_MAX && slots_ok(s)
}
