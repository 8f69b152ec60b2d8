// Segments on channels, counted from 1 as in the papers.

ghost use Rattle.std.specs.Prelude.{◌-◌, ◌<◌, ◌≤◌, ◌^◌, ◌≡◌};
ghost use Rattle.rules.specs.Limits.{count_max};
ghost use Rattle.grid.specs.Channels.{channel_cell};
ghost use Rattle.grid.specs.Bounds.{CountCap, Counted, tick_max};
ghost use Rattle.rules.specs.Refusals.{pick};
ghost use Rattle.plans.specs.Padded.{plan_at};
ghost use Rattle.figures.specs.Segments.{segment_of, found_in, needs_no_buffer};

// The segment of count `count` that holds a cell.
pub fn segment_of(cap: u64, count: u64, cell: u64) -> u64
    requires count_cap { CountCap count cap }
    requires cell_bound { cell < 2 ^ count_max }
    ensures { result ≡ segment_of cap count cell }
{
    cell / grid::slot(cap, count) + 1
}

// The segment that channel `channel` carries at a tick.
pub fn on_channel(floor: u64, cap: u64, count: u64, channel: u64, tick: u64) -> u64
    requires counted { Counted floor cap count }
    requires channel_lt_count { (channel < count) × (tick ≤ tick_max) }
    ensures { result ≡ segment_of cap count (channel_cell floor cap count channel tick) }
{
    let cell = grid::channel_cell(floor, cap, count, channel, tick);
    segment_of(cap, count, cell)
}

// The segment of count `other` in which what channel `channel` of count 2 carries at a tick goes out at tick `at` under that
// count; 0 where it does not. Floor 2 and cap 4, as in figure 4.
pub fn found_in(other: u64, channel: u64, tick: u64, at: u64) -> u64
    requires counted { Counted 2 4 other }
    requires channel_bound { (channel < 2) × ((tick ≤ tick_max) × (at ≤ tick_max)) }
    ensures { result ≡ found_in other channel tick at }
{
    let cell = grid::channel_cell(2, 4, 2, channel, tick);
    if grid::in_g(2, 4, other, at, cell) {
        return segment_of(4, other, cell);
    }
    0
}

// Whether a box that starts at slot `start` of figure 1 finds each of the 15 segments on a channel just when it plays.
pub fn needs_no_buffer(start: u64) -> bool
    requires { start ≤ 8 }
    ensures { result ≡ needs_no_buffer start 15 }
{
    for cell in 0..15 {
        if !grid::in_g(4, 4, 4, start + cell, cell) {
            return false;
        }
    }
    true
}

// The same as a number, 1 where it does.
pub fn unbuffered(start: u64) -> u64
    requires { start ≤ 8 }
    ensures { result ≡ pick (needs_no_buffer start 15) 1 0 }
{
    u64::from(needs_no_buffer(start))
}

// The slot, from 0, in which the box of figure 1 that starts at slot 0 takes a segment.
pub fn taken_in(segment: usize) -> u64
    requires { (1 ≤ segment) × (segment ≤ 16) }
    ensures { result ≡ plan_at 4 4 4 0 (segment - 1) }
{
    let mut row = [0u16; 16];
    plans::plan(4, 4, 4, 0, &mut row);
    u64::from(row[segment - 1])
}
