// When each wish of a list comes true: at the earliest moment from the event before it on, in the state that the events
// before it leave.

ghost use Rattle.std.specs.Prelude.{◌≤◌, ◌≡◌, true};
ghost use Rattle.rules.specs.Limits.{id_max, asked_max, event_time_max, titles_max};
ghost use Rattle.story.specs.Kept.{title_at, state_ok};
ghost use Rattle.story.specs.Next.{change_next};
ghost use Rattle.measures.specs.Readable.{Changeable};
ghost use Rattle.planner.specs.inner.Steps.{WishesFit, ListTimed};

use measures::slots::{title_of, with_title};
use moments::due_at;
use owed::dropping::changed_title;
use rules::TITLES_MAX;
use story::State;
use wishes::Wishes;

// The moments of a list of wishes in its first places, and the last of them; the given time where there are none.
#[derive(Clone, Copy)]
pub struct Times {
    pub last: u64,
    pub row: [u64; TITLES_MAX],
}

// The state once a title has changed to a count at a time.
fn moved(s: State, id: u64, time: u64, count: u64) -> State
    requires id_le_id_max { (id ≤ id_max) × (time ≤ asked_max) }
    requires changeable { Changeable (title_at s id) }
    ensures { result ≡ change_next s id time count }
{
    with_title(s, id, changed_title(title_of(s, id), time, count), time)
}

// The moments of the wishes, one behind the other.
pub fn times_of(s: State, time: u64, w: Wishes) -> Times
    requires s_value { state_ok s ≡ true }
    requires wishes_fit { WishesFit s w }
    requires time_le_event_time_max { (time ≤ event_time_max) × (w.many ≤ titles_max) }
    ensures { ListTimed s time w result }
{
    let many = w.many;
    let ids = w.titles;
    let counts = w.counts;
    let mut row = [0; TITLES_MAX];
    let mut q = s;
    let mut last = time;
    for j in 0..many {
        let id = ids[j];
        let count = counts[j];
        last = due_at(q, id, count, last);
        row[j] = last;
        q = moved(q, id, last, count);
    }
    Times { last, row }
}
