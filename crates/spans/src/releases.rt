// Until when a title holds a lane, if nothing more happens to it and its active lanes are left out of account.

ghost use Rattle.std.specs.Prelude.{◌≤◌, ◌<◌, ◌≡◌};
ghost use Rattle.rules.specs.Limits.{count_max, length_max};
ghost use Rattle.story.specs.Kept.{absent_mode, title_tick};
ghost use Rattle.moments.specs.Searched.{Timed};
ghost use Rattle.spans.specs.Extents.{later_of, gone_at, title_until};

use measures::lanes::ruling;
use moments::releases::release_of;
use story::{ABSENT, Title};

// The later of a moment and the release of a lane, where it is not active.
fn later(t: Title, tick: u64, moment: u64, lane: u64) -> u64
    requires timed { Timed t }
    requires lane_lt_count_max { (lane < count_max) × ((tick ≡ title_tick t) × (tick ≤ length_max)) }
    ensures { result ≡ later_of t moment lane }
{
    if ruling(t) <= lane {
        return moment.max(release_of(t, tick, lane));
    }
    moment
}

// The later of a title's latest event and the releases of its lanes that are not active.
fn last_release(t: Title) -> u64
    requires { Timed t }
    ensures { result ≡ gone_at t }
{
    let tick = scheme::tick(t.film.kind, t.film.length, t.film.floor, t.film.cap);
    let mut moment = t.last;
    for lane in 0..t.film.cap {
        moment = later(t, tick, moment, lane);
    }
    moment
}

// The latest event of a slot or the last release of its lanes; 0 where it has no title.
pub fn title_until(t: Title) -> u64
    requires { (t.mode ≡ absent_mode → ⊥) → Timed t }
    ensures { result ≡ title_until t }
{
    if t.mode == ABSENT {
        return 0;
    }
    last_release(t)
}
