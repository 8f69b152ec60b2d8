// When lanes are released: at the start of the tick at which a lane's list has gone (01, "Events"). Between releases the
// number of lanes held stays as it is.

ghost use Rattle.std.specs.Prelude.{suc, ◌≤◌, ◌<◌, ◌≡◌, leb, ltb};
ghost use Rattle.rules.specs.Limits.{both, count_max, length_max, event_time_max, titles_max};
ghost use Rattle.story.specs.Kept.{absent_mode, title_tick, title_held};
ghost use Rattle.story.specs.Calls.{too_many};
ghost use Rattle.moments.specs.Searched.{Timed, AllTimed, release_moment, Frees, Goes};
ghost use Rattle.moments.specs.inner.Steps.{sooner_of, lanes_release, title_release, release_in};

use crate::PAST;
use measures::lanes::{lanes_held, title_held};
use rules::EVENT_TIME_MAX;
use story::{ABSENT, State, Title};

// The sooner of two moments, where the second lies after a time.
fn sooner(time: u64, a: u64, b: u64) -> u64
    ensures { result ≡ sooner_of time a b }
{
    if b <= time { a } else { a.min(b) }
}

// The moment from which on a lane's list has gone, for a title with a tick of so many ms.
pub fn release_of(t: Title, tick: u64, lane: u64) -> u64
    requires timed { Timed t }
    requires lane_lt_count_max { (lane < count_max) × ((tick ≡ title_tick t) × (tick ≤ length_max)) }
    ensures { result ≡ release_moment t lane }
{
    let from = t.dropped[lane as usize];
    let owed = t.owed[lane as usize];
    // a longer list goes past the clock too, and the product fits
    let ticks = (from + owed).min(PAST);
    t.opened + ticks * tick
}

// The soonest of a moment and the releases of a title's lanes after a time.
fn lanes_release(t: Title, time: u64, soonest: u64) -> u64
    requires { Timed t }
    ensures { result ≡ lanes_release t time soonest t.film.cap }
{
    let tick = scheme::tick(t.film.kind, t.film.length, t.film.floor, t.film.cap);
    let mut r = soonest;
    for lane in 0..t.film.cap {
        r = sooner(time, r, release_of(t, tick, lane));
    }
    r
}

// The same of a slot, which may have no title.
pub fn title_release(t: Title, time: u64, soonest: u64) -> u64
    requires { (t.mode ≡ absent_mode → ⊥) → Timed t }
    ensures { result ≡ title_release t time soonest }
{
    if t.mode == ABSENT {
        return soonest;
    }
    lanes_release(t, time, soonest)
}

// The next release after a time, PAST where the clock has none.
fn next_release(s: State, time: u64) -> u64
    requires { AllTimed s }
    ensures { result ≡ release_in s time titles_max }
{
    let mut r = PAST;
    for t in &s.titles {
        r = title_release(*t, time, r);
    }
    r
}

// More than the pool is held at a time that the clock has.
fn is_full(s: State, time: u64) -> bool
    requires { AllTimed s }
    ensures { result ≡ both (leb time event_time_max) (too_many s time) }
{
    time <= EVENT_TIME_MAX && s.pool < lanes_held(s, time)
}

// The first time from another on at which no more than the pool is held, PAST where the clock has none.
pub fn free_from(s: State, from: u64) -> u64
    requires all_timed { AllTimed s }
    requires from_bound { from ≤ suc event_time_max }
    ensures { Frees s from result }
{
    let mut time = from;
    while is_full(s, time) {
        time = next_release(s, time);
    }
    time
}

// A title holds a lane at a time that the clock has.
fn is_holding(t: Title, time: u64) -> bool
    requires { Timed t }
    ensures { result ≡ both (leb time event_time_max) (ltb 0 (title_held t time)) }
{
    time <= EVENT_TIME_MAX && 0 < title_held(t, time)
}

// The first time from another on at which a title holds no lane, PAST where the clock has none.
pub fn gone_from(t: Title, from: u64) -> u64
    requires timed { Timed t }
    requires from_bound { from ≤ suc event_time_max }
    ensures { Goes t from result }
{
    let mut time = from;
    while is_holding(t, time) {
        time = lanes_release(t, time, PAST);
    }
    time
}
