// Which cell each channel and lane carries at a tick. These functions are for the crates above, and say in a `requires`
// what they build on; the calls that a customer makes have none and stand in those crates.
#![tactic(auto)]

ghost use Rattle.std.specs.Prelude.{suc, ◌+◌, ◌*◌, ◌-◌, ◌^◌, ◌≤◌, ◌<◌, ◌≡◌, pos, ◌-ℤ◌};
ghost use Rattle.std.specs.Int.Count.{count_trailing_zeros};
ghost use Rattle.rules.specs.Limits.{count_max};
ghost use Rattle.grid.specs.Ticks.{slot as slot_of, tick_of};
ghost use Rattle.grid.specs.Channels.{floor_rem, shift as shift_of, channel_cell};
ghost use Rattle.grid.specs.Lanes.{is_in_g, added_channel, lane_cell};
ghost use Rattle.grid.specs.Bounds.{
  Exactly,
  Length,
  FloorCap,
  CountCap,
  Counted,
  tick_max,
  IsRest,
  IsCell,
  IsChannel,
  Carrier,
};

// 2 to the power n.
pub fn pow2(n: u64) -> u64
    requires { n ≤ count_max }
    ensures { Exactly (2 ^ n) 1 (2 ^ count_max) result }
{
    1 << n
}

// The ticks in a slot of count `count`.
pub fn slot(cap: u64, count: u64) -> u64
    requires { CountCap count cap }
    ensures { Exactly (slot_of cap count) 1 (2 ^ count_max) result }
{
    pow2(cap - count)
}

// The tick, in ms, of a film of `length` ms.
pub fn tick(length: u64, floor: u64, cap: u64) -> u64
    requires length { Length length }
    requires floor_cap { FloorCap floor cap }
    ensures { Exactly (tick_of length floor cap) 1 length result }
{
    let held = pow2(cap) - pow2(cap - floor);
    length.div_ceil(held)
}

// By how many slots slot j lies after slot s: below zero where it lies before.
pub fn slot_difference(j: u64, s: u64) -> i64
    requires { (j < 2 ^ 62) × (s < 2 ^ 62) }
    ensures { result ≡ pos j -ℤ pos s }
{
    j as i64 - s as i64
}

// The remainder by m that is never negative, of a number below zero: `rest` is what -1 exceeds it by, less whole m's.
fn from_below(rest: u64, m: u64) -> u64
    requires { rest < m }
    ensures { result ≡ m - 1 - rest }
{
    m - 1 - rest
}

// The remainder of x by m that is never negative, exact below, at and above zero.
pub fn floor_rem(x: i64, m: u64) -> u64
    requires { 0 < m }
    ensures { IsRest (floor_rem x m) m result }
{
    // kept: `i64::rem_euclid` takes a signed divisor, so each call would narrow m and prove that it fits
    if x < 0 {
        // x is -1 - n: unlike -x, this n fits for every x below zero
        let n = (-1 - x) as u64;
        from_below(n % m, m)
    } else {
        x as u64 % m
    }
}

// By how many slots the channels of count `count` are shifted.
fn shift(floor: u64, count: u64) -> u64
    requires { (floor ≤ count) × (count ≤ count_max) }
    ensures { Exactly (shift_of floor count) 0 (2 ^ count_max) result }
{
    pow2(count - floor) - 1
}

// The place, from 0, of the segment that channel `channel` of count `count` carries in slot j among its 2^channel
// segments.
pub fn place(floor: u64, count: u64, channel: u64, j: u64) -> u64
    requires floor_le_count { (floor ≤ count) × (count ≤ count_max) }
    requires channel_le_count { (channel ≤ count) × (j ≤ tick_max) }
    ensures { IsRest (floor_rem (pos j -ℤ pos (shift_of floor count)) (2 ^ channel)) (2 ^ channel) result }
{
    floor_rem(slot_difference(j, shift(floor, count)), pow2(channel))
}

// The cell that channel `channel` of count `count` carries at tick `tick`.
pub fn channel_cell(floor: u64, cap: u64, count: u64, channel: u64, tick: u64) -> u64
    requires counted { Counted floor cap count }
    requires channel_lt_count { (channel < count) × (tick ≤ tick_max) }
    ensures { IsCell cap (channel_cell floor cap count channel tick) result }
{
    let width = slot(cap, count);
    let segment = pow2(channel) + place(floor, count, channel, tick / width);
    (segment - 1) * width + tick % width
}

// The channel of count `count` on which cell `cell` goes out, the place of the highest one-bit of its segment's number;
// `count` for the cells of the last slot, which no channel carries.
pub fn carrier(cap: u64, count: u64, cell: u64) -> u64
    requires count_cap { CountCap count cap }
    requires cell_bound { cell < 2 ^ cap }
    ensures { Carrier cap count cell result }
{
    u64::from((cell / slot(cap, count) + 1).ilog2())
}

// Whether cell `cell` is in G(count, tick): the one channel that may carry it has it.
pub fn in_g(floor: u64, cap: u64, count: u64, tick: u64, cell: u64) -> bool
    requires counted { Counted floor cap count }
    requires tick_le_tick_max { tick ≤ tick_max }
    ensures { result ≡ is_in_g floor cap count tick cell }
{
    if pow2(cap) <= cell {
        return false;
    }
    let channel = carrier(cap, count, cell);
    channel < count && channel_cell(floor, cap, count, channel, tick) == cell
}

// The low zeros of x, at most `most`: zero has as many as are asked for.
fn low_zeros(x: u64, most: u64) -> u64
    requires { most ≤ count_max }
    ensures { result ≡ count_trailing_zeros most x }
{
    if x == 0 {
        return most;
    }
    u64::from(x.trailing_zeros()).min(most)
}

// The channel of count `lane` + 1 whose cell at tick `tick` is the one not in G(lane, tick): the low zeros of the
// slot's number, less the shift, plus one. A sum below zero has the low zeros of its distance from it.
pub fn added_channel(floor: u64, cap: u64, lane: u64, tick: u64) -> u64
    requires counted { Counted floor cap (suc lane) }
    requires floor_le_lane { (floor ≤ lane) × (tick ≤ tick_max) }
    ensures { IsChannel (suc lane) (added_channel floor cap lane tick) result }
{
    let count = lane + 1;
    let j = tick / slot(cap, count);
    low_zeros((j + 1).abs_diff(shift(floor, count)), lane)
}

// The cell that lane `lane` carries at tick `tick`.
pub fn lane_cell(floor: u64, cap: u64, lane: u64, tick: u64) -> u64
    requires floor_cap { FloorCap floor cap }
    requires lane_lt_cap { (lane < cap) × (tick ≤ tick_max) }
    ensures { IsCell cap (lane_cell floor cap lane tick) result }
{
    if lane < floor {
        return channel_cell(floor, cap, floor, lane, tick);
    }
    channel_cell(
        floor,
        cap,
        lane + 1,
        added_channel(floor, cap, lane, tick),
        tick,
    )
}
