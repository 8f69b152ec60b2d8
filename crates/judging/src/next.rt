// For each cell the next tick at which some lane shows it, as the ticks of a record are walked backwards.

ghost use Rattle.std.specs.Prelude.{◌<◌, ◌≡◌};
ghost use Rattle.rules.specs.Limits.{lane_places};
ghost use Rattle.judging.specs.Record.{ticks_in, ticks_max};
ghost use Rattle.judging.specs.inner.Walk.{noted, Nexts};

use crate::NOTHING_SEEN;
use rules::{LANE_PLACES, PLAN_PLACES};

// Past the record's end no cell is shown.
pub fn never(air: &[u16]) -> [u16; PLAN_PLACES]
    ensures { Nexts air.now (ticks_in air.now) result }
{
    [NOTHING_SEEN; PLAN_PLACES]
}

// The cells that the lanes show at a tick are next shown then.
pub fn note(air: &[u16], tick: usize, next: &mut [u16])
    requires { (tick < ticks_in air.now) × (tick < ticks_max) }
    ensures { next.new ≡ noted air.now tick next.old lane_places }
{
    for lane in 0..LANE_PLACES {
        let cell = air[tick * LANE_PLACES + lane] as usize;
        if cell < next.len() {
            next[cell] = tick as u16;
        }
    }
}
