// The latest boxes of the counts that had a lane.

ghost use Rattle.std.specs.Prelude.{suc, ◌+◌, ◌^◌, ◌≤◌, ◌<◌, ◌≡◌, true, eqb};
ghost use Rattle.rules.specs.Limits.{count_max, count_places};
ghost use Rattle.rules.specs.Refusals.{pick};
ghost use Rattle.story.specs.Kept.{row_ok};
ghost use Rattle.stretches.specs.inner.Walk.{IsLatest};

use grid::slot;
use rules::COUNT_PLACES;

// Where a slot of a lane ends that begins with the latest box of a count that had it, 0 where there was none; and the latest end of such
// a count.
#[derive(Clone, Copy)]
pub struct Latest {
    pub until: u64,
    pub end: u64,
}

// A count that ended so, moved by so many ticks; 0 stays, as it never ruled.
pub fn moved(end: u64, by: u64) -> u64
    requires { end + by < 2 ^ 64 }
    ensures { result ≡ pick (eqb end 0) 0 (end + by) }
{
    if end == 0 {
        return 0;
    }
    end + by
}

// Of the counts above a lane. The numbers alone are handed on: a title handed on is copied.
pub fn latest_above(ends: &[u64; COUNT_PLACES], cap: u64, lane: u64) -> Latest
    requires lane_lt_cap { (lane < cap) × (cap ≤ count_max) }
    requires count_places_value { row_ok ends.now count_places ≡ true }
    ensures { IsLatest ends.now cap lane (suc cap) result.until result.end }
{
    let width = slot(cap, lane + 1);
    let mut until: u64 = 0;
    let mut end: u64 = 0;
    for count in lane + 1..cap + 1 {
        let ended = ends[count as usize];
        until = until.max(moved(ended, width - slot(cap, count)));
        end = end.max(ended);
    }
    Latest { until, end }
}
