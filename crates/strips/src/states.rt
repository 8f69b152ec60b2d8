// The stretch of time for which a lane is as it is: active, or sending what it owes.

ghost use Rattle.std.specs.Prelude.{◌<◌, ◌≡◌};
ghost use Rattle.rules.specs.Limits.{count_max};
ghost use Rattle.story.specs.Kept.{absent_mode};
ghost use Rattle.moments.specs.Searched.{Timed};
ghost use Rattle.strips.specs.States.{sending_stretch, stretch_since, switches as switchesOf};

use measures::lanes::ruling;
use moments::releases::release_of;
use story::{ABSENT, Title};

// From when to when, and of a lane that sends how many cells it owed; none where it is active.
#[derive(Clone, Copy)]
pub struct Stretch {
    pub from: u64,
    pub to: u64,
    pub owed: Option<u64>,
}

// Of a lane that is not active.
fn sending(t: Title, lane: u64, since: u64, time: u64) -> Option<Stretch>
    requires timed { Timed t }
    requires lane_lt_count_max { lane < count_max }
    ensures { result ≡ sending_stretch t lane since time }
{
    let owed = t.owed[lane as usize];
    if owed == 0 {
        return None;
    }
    let tick = scheme::tick(t.film.kind, t.film.length, t.film.floor, t.film.cap);
    Some(Stretch {
        from: since,
        to: release_of(t, tick, lane).min(time),
        owed: Some(owed),
    })
}

// The stretch that a lane of a title is in, since a moment, as far as a time.
pub fn stretch_of(t: Title, lane: u64, since: u64, time: u64) -> Option<Stretch>
    requires timed { (t.mode ≡ absent_mode → ⊥) → Timed t }
    requires lane_lt_count_max { lane < count_max }
    ensures { result ≡ stretch_since t lane since time }
{
    if t.mode == ABSENT {
        return None;
    }
    if lane < ruling(t) {
        return Some(Stretch {
            from: since,
            to: time,
            owed: None,
        });
    }
    sending(t, lane, since, time)
}

// Whether a lane of a title becomes active, or no longer is, with another ruling count.
pub fn switches(t: Title, count: u64, lane: u64) -> bool
    ensures { result ≡ switchesOf t count lane }
{
    if lane < ruling(t) {
        return count <= lane;
    }
    lane < count
}
