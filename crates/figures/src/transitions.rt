// What lanes carry and what dropped lanes send, of a title with floor 2, cap 4 and a tick of 1 ms, opened with count 4 at 0.

ghost use Rattle.std.specs.Prelude.{◌+◌, ◌≤◌, ◌≡◌};
ghost use Rattle.grid.specs.Lanes.{lane_cell};
ghost use Rattle.grid.specs.Bounds.{tick_max};
ghost use Rattle.figures.specs.Transitions.{sent_of};

use rules::DONE;

// What is asked of a lane that sends nothing.
pub const NOTHING: u64 = 99;

// Figure 6(a): the fourth lane, which carries what count 4 has and count 3 has not, counted as segments of count 4.
pub fn fourth_lane(tick: u64) -> u64
    requires { tick ≤ tick_max }
    ensures { result ≡ lane_cell 2 4 3 tick + 1 }
{
    grid::lane_cell(2, 4, 3, tick) + 1
}

// The segment of count 4 that a lane sends at a time, after a change from count 4 to `count` at time 4.
pub fn sent(count: u64, lane: u64, time: u64) -> u64
    ensures { result ≡ sent_of count lane time }
{
    let started = scheduler::fresh(4);
    let opened = scheduler::open(started.state, 0, 0, 12, 2, 4, 4);
    let changed = scheduler::change(opened.state, 0, 4, count);
    let shown = scheduler::lane(changed.state, 0, lane, time);
    if shown.answer == DONE && shown.cell < 16 {
        return shown.cell + 1;
    }
    NOTHING
}
