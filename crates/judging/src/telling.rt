// The results of the admissions, in order, and how many there are of each kind.

ghost use Rattle.std.specs.Prelude.{◌≤◌, ◌<◌, length};
ghost use Rattle.rules.specs.Limits.{plan_places};
ghost use Rattle.judging.specs.Record.{ticks_max};
ghost use Rattle.judging.specs.inner.Walk.{OneMore, FewCounts, TellsResults};

use crate::results::is_whole;
use crate::{Counts, NOTHING_SEEN};

// One tick more: an admission that is judged has its result put in the next place.
fn put(res: u16, admission: bool, whole: bool, counts: Counts, row: &mut [u16]) -> Counts
    requires { FewCounts counts (length row.old) }
    ensures { OneMore res admission whole counts row.old row.new result }
{
    if admission && whole {
        row[counts.judged as usize] = res;
        Counts {
            judged: counts.judged + 1,
            played: counts.played + u64::from(res == NOTHING_SEEN),
            outlast: counts.outlast,
        }
    } else {
        Counts {
            judged: counts.judged,
            played: counts.played,
            outlast: counts.outlast + u64::from(admission),
        }
    }
}

// All ticks of a record, with the result of each.
pub fn tell(results: &[u16], marks: &[u8], cells: usize, ticks: usize, row: &mut [u16]) -> Counts
    requires cells_le_plan_places { (cells ≤ plan_places) × (ticks ≤ ticks_max) }
    requires ticks_in_bounds { (ticks ≤ length results.now) × (ticks ≤ length marks.now) × (ticks ≤ length row.old) }
    ensures { TellsResults results.now marks.now cells ticks row.old row.new result }
{
    let mut counts = Counts {
        judged: 0,
        played: 0,
        outlast: 0,
    };
    for start in 0..ticks {
        let whole = is_whole(cells, ticks, start);
        counts = put(results[start], marks[start] == 1, whole, counts, row);
    }
    counts
}
