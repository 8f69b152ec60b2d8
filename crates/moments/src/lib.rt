// The earliest moment at which a title can change to a count (02, 11): the first that its rules permit once the lanes are
// free. Times are reached by jumps, from slot start to slot start and from release to release, and never counted up.
#![tactic(auto)]

pub mod releases;
pub mod starts;

ghost use Rattle.std.specs.Prelude.{suc, ◌≤◌, ◌≡◌, true};
ghost use Rattle.rules.specs.Limits.{id_max, event_time_max};
ghost use Rattle.grid.specs.Bounds.{Exactly};
ghost use Rattle.story.specs.Kept.{open_mode, title_at, state_ok};
ghost use Rattle.moments.specs.Moments.{is_due, earliest};
ghost use Rattle.moments.specs.inner.Steps.{FindsLanes};

use crate::releases::free_from;
use crate::starts::permitted_from;
use measures::slots::{title_of, with_title};
use owed::dropping::changed_title;
use rules::EVENT_TIME_MAX;
use story::State;

// Stands for every time past the clock.
pub const PAST: u64 = EVENT_TIME_MAX + 1;

// The first time from another on at which a change of a title finds its lanes: at once for a drop.
fn lanes_from(s: State, id: u64, count: u64, from: u64) -> u64
    requires s_value { state_ok s ≡ true }
    requires id_le_id_max { (id ≤ id_max) × ((title_at s id).mode ≡ open_mode) }
    requires from_bound { from ≤ suc event_time_max }
    ensures { FindsLanes s id count from result }
{
    let t = title_of(s, id);
    if count <= t.count {
        return from;
    }
    // a raise drops no lane, so that it asks for the same lanes whenever it comes
    free_from(with_title(s, id, changed_title(t, from, count), from), from)
}

// The earliest time from another on at which a title can change to a count, PAST where the clock has none.
pub fn due_at(s: State, id: u64, count: u64, from: u64) -> u64
    requires s_value { state_ok s ≡ true }
    requires id_le_id_max { (id ≤ id_max) × (((title_at s id).mode ≡ open_mode) × (count ≤ (title_at s id).film.cap)) }
    requires id_bound { ((title_at s id).film.floor ≤ count) × (from ≤ suc event_time_max) }
    ensures { Exactly (earliest (is_due s id count) from) from (suc event_time_max) result }
{
    let t = title_of(s, id);
    let free = lanes_from(s, id, count, from);
    permitted_from(t, t.count.min(count), free).min(PAST)
}
