// How long a lane that is given back is still held, by the scheduler's own answers: a film of 120 minutes that has as many
// lanes as its cap gives the last one back.

ghost use Rattle.std.specs.Prelude.{◌-◌, ◌*◌, ◌^◌, ◌≤◌, ◌<◌, ◌≡◌, eqb};
ghost use Rattle.rules.specs.Limits.{count_max};
ghost use Rattle.rules.specs.Refusals.{pick};
ghost use Rattle.story.specs.Calls.{lane_answer};
ghost use Rattle.grid.specs.Bounds.{FloorCap, Exactly};
ghost use Rattle.grid.specs.Ticks.{tick_of};
ghost use Rattle.figures.specs.Times.{two_hours, round_to};
ghost use Rattle.figures.specs.Holding.{returned_at, held_ticks, longest_held, drops};

use crate::times::{FILM, slot_ms};
use grid::pow2;
use rules::DONE;
use story::State;

// The state once the last of `count` lanes was given back at a tick.
fn returned(floor: u64, count: u64, drop: u64) -> State
    requires floor_cap { FloorCap floor count }
    requires drop_bound { drop ≤ 2 * 2 ^ count_max }
    ensures { result ≡ returned_at floor count drop }
{
    let started = scheduler::fresh(count);
    let opened = scheduler::open(started.state, 0, 0, FILM, floor, count, count);
    let changed = scheduler::change(opened.state, 0, drop * slot_ms(floor, count), count - 1);
    changed.state
}

// 1 where a lane is held at a time.
fn held_at(s: State, lane: u64, time: u64) -> u64
    ensures { Exactly (pick (eqb (lane_answer s 0 lane time) 0) 1 0) 0 1 result }
{
    u64::from(scheduler::lane(s, 0, lane, time).answer == DONE)
}

// How many ticks a lane that was given back at a tick is held.
fn held_ticks(floor: u64, count: u64, drop: u64) -> u64
    requires floor_cap { FloorCap floor count }
    requires drop_bound { drop ≤ 2 * 2 ^ count_max }
    ensures { Exactly (held_ticks floor count drop) 0 (2 ^ count_max) result }
{
    let state = returned(floor, count, drop);
    let tick = slot_ms(floor, count);
    let reach = pow2(count - 1);
    let mut held = 0;
    for i in 0..reach {
        held += held_at(state, count - 1, (drop + i) * tick);
    }
    held
}

// The longest over the drop moments of a period, the second from the opening on.
fn longest_held(floor: u64, count: u64) -> u64
    requires { FloorCap floor count }
    ensures { Exactly (longest_held floor count (drops count)) 0 (2 ^ count_max) result }
{
    let period = pow2(count - 1);
    let mut most = 0;
    for i in 0..period / 2 {
        most = most.max(held_ticks(floor, count, period + 2 * i));
    }
    most
}

// The same in tenths of a minute.
pub fn holding_tenths(floor: u64, count: u64) -> u64
    requires { FloorCap floor count }
    ensures { result ≡ round_to 6000 (longest_held floor count (drops count) * tick_of two_hours floor count) }
{
    (longest_held(floor, count) * slot_ms(floor, count) + 3000) / 6000
}
