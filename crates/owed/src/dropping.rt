// What a change, a close, a hold and a lift make of a title: the ruling count ends, and the lanes above the new count are
// dropped (01, "Events"; 02, 7).

ghost use Rattle.std.specs.Prelude.{◌≤◌, ◌<◌, ◌≡◌};
ghost use Rattle.rules.specs.Limits.{asked_max, count_max};
ghost use Rattle.rules.specs.Refusals.{pick};
ghost use Rattle.story.specs.Kept.{clear_mark, held_mark};
ghost use Rattle.story.specs.Next.{ended, drop_lane, drop_lanes, turned, changed_title, closed_title, turned_title};
ghost use Rattle.story.specs.Next.{doors_title};
ghost use Rattle.measures.specs.Readable.{Owing, Changeable};

use crate::owing::owes;
use measures::ticks::tick_at;
use story::{CLEAR, CLOSING, HELD, OPEN, Title};

// A lane is dropped at a tick, and how many cells it owes is counted once, here.
fn drop_lane(t: Title, tick: u64, lane: u64) -> Title
    requires owing { Owing t }
    requires lane_lt_cap { (lane < t.film.cap) × (tick ≤ asked_max) }
    ensures { result ≡ drop_lane t tick lane }
{
    let n = owes(t, lane, tick);
    let mut q = t;
    q.dropped[lane as usize] = tick;
    q.owed[lane as usize] = n;
    q
}

// The lanes from the new count up to the old are dropped at a tick.
fn drop_lanes(t: Title, tick: u64, count: u64) -> Title
    requires owing { Owing t }
    requires count_le_cap { (t.count ≤ t.film.cap) × (tick ≤ asked_max) }
    ensures { result ≡ drop_lanes t tick count t.count }
{
    let mut q = t;
    for lane in count..t.count {
        q = drop_lane(q, tick, lane);
    }
    q
}

// The ruling count ends at a tick, which no longer belongs to it. While the doors are held it has ended already.
fn end_count(t: Title, tick: u64) -> Title
    requires { (t.count ≤ count_max) × (tick ≤ asked_max) }
    ensures { result ≡ ended t tick }
{
    if t.mark == HELD {
        return t;
    }
    let mut q = t;
    let count = t.count;
    q.ends[count as usize] = tick;
    q
}

// A title with another mode, count, mark, latest event and latest opening or change.
fn turn(t: Title, mode: u64, count: u64, mark: u64, time: u64, tuned: u64) -> Title
    ensures { result ≡ turned t mode count mark time tuned }
{
    // a title made anew from its fields is copied row by row, and a hold would miss its bar (docs/PERFORMANCE.md, "Goals")
    let mut q = t;
    q.mode = mode;
    q.count = count;
    q.mark = mark;
    q.last = time;
    q.tuned = tuned;
    q
}

// A turn at a time to so many lanes, with the mode, the count, the mark and the time of the latest opening or change that
// are stored. The event's own tick belongs to the new count: the old one ends before it.
fn turned_title(
    t: Title,
    time: u64,
    lanes: u64,
    mode: u64,
    count: u64,
    mark: u64,
    tuned: u64,
) -> Title
    requires changeable { Changeable t }
    requires time_le_asked_max { time ≤ asked_max }
    ensures { result ≡ turned_title t time lanes mode count mark tuned }
{
    let tick = tick_at(t, time);
    turn(
        drop_lanes(end_count(t, tick), tick, lanes),
        mode,
        count,
        mark,
        time,
        tuned,
    )
}

// A title whose count changes at a time; its doors stay as they are, and its card retunes.
pub fn changed_title(t: Title, time: u64, count: u64) -> Title
    requires changeable { Changeable t }
    requires time_le_asked_max { time ≤ asked_max }
    ensures { result ≡ changed_title t time count }
{
    turned_title(t, time, count, OPEN, count, t.mark, time)
}

// A title that closes at a time: all active lanes are dropped, and the count is kept.
pub fn closed_title(t: Title, time: u64) -> Title
    requires changeable { Changeable t }
    requires time_le_asked_max { time ≤ asked_max }
    ensures { result ≡ closed_title t time }
{
    turned_title(t, time, 0, CLOSING, t.count, CLEAR, t.tuned)
}

// The mark of doors that are held, or not.
fn mark_of(held: bool) -> u64
    ensures { result ≡ pick held held_mark clear_mark }
{
    if held { HELD } else { CLEAR }
}

// A title whose doors are held from a time on, or no longer. No lane is dropped.
pub fn doors_title(t: Title, time: u64, held: bool) -> Title
    requires changeable { Changeable t }
    requires time_le_asked_max { time ≤ asked_max }
    ensures { result ≡ doors_title t time held }
{
    turn(
        end_count(t, tick_at(t, time)),
        OPEN,
        t.count,
        mark_of(held),
        time,
        t.tuned,
    )
}
