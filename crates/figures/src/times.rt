// Slot lengths and waiting times of a film of 120 minutes and of the longest, where the cap is the count: a slot is one
// tick.

ghost use Rattle.std.specs.Prelude.{◌≡◌};
ghost use Rattle.rules.specs.Limits.{length_max};
ghost use Rattle.grid.specs.Ticks.{tick_of};
ghost use Rattle.grid.specs.Bounds.{FloorCap, Exactly};
ghost use Rattle.figures.specs.Times.{two_hours, round_to, increase_of};

use rules::LENGTH_MAX;

pub const FILM: u64 = 7_200_000;

// The slot, in ms: the longest wait.
pub fn slot_ms(floor: u64, count: u64) -> u64
    requires { FloorCap floor count }
    ensures { Exactly (tick_of two_hours floor count) 1 two_hours result }
{
    grid::tick(FILM, floor, count)
}

// The slot of the longest film that may be opened, in ms.
pub fn longest_slot(floor: u64, count: u64) -> u64
    requires { FloorCap floor count }
    ensures { result ≡ tick_of length_max floor count }
{
    grid::tick(LENGTH_MAX, floor, count)
}

// The slot in hundredths of a second.
pub fn slot_seconds(floor: u64, count: u64) -> u64
    requires { FloorCap floor count }
    ensures { result ≡ round_to 10 (tick_of two_hours floor count) }
{
    (slot_ms(floor, count) + 5) / 10
}

// The slot in tenths of a second.
pub fn slot_tenths(floor: u64, count: u64) -> u64
    requires { FloorCap floor count }
    ensures { result ≡ round_to 100 (tick_of two_hours floor count) }
{
    (slot_ms(floor, count) + 50) / 100
}

// Half the slot, the average wait, in hundredths of a minute.
pub fn average_wait(floor: u64, count: u64) -> u64
    requires { FloorCap floor count }
    ensures { result ≡ round_to 1200 (tick_of two_hours floor count) }
{
    (slot_ms(floor, count) + 600) / 1200
}

// By how much padding makes the average wait longer, in hundredths of a minute: the slot against that of the scheme without
// padding, whose film has 2^count - 1 segments.
pub fn increase(floor: u64, count: u64) -> u64
    requires { FloorCap floor count }
    ensures { result ≡ increase_of floor count }
{
    let padded = slot_ms(floor, count);
    let plain = slot_ms(count, count);
    (padded.saturating_sub(plain) + 600) / 1200
}
