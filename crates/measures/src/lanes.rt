// Which lanes are held (01, "Events" and "Status"). Whether a lane still sends is a comparison: how many cells it owes
// was counted when it was dropped.

ghost use Rattle.std.specs.Prelude.{◌+◌, ◌≤◌, ◌<◌, ◌≡◌, ltb, get_or};
ghost use Rattle.rules.specs.Limits.{count_max};
ghost use Rattle.rules.specs.Search.{how_many};
ghost use Rattle.grid.specs.Bounds.{Exactly};
ghost use Rattle.story.specs.Kept.{ruling as rulingOf, kept_held, title_held, lanes_held, is_there};
ghost use Rattle.measures.specs.Readable.{Readable, AllReadable};

use crate::ticks::tick_at;
use story::{ABSENT, OPEN, State, Title};

// The ruling count, 0 where the title isn't open.
pub fn ruling(t: Title) -> u64
    ensures { result ≡ rulingOf t }
{
    if t.mode == OPEN { t.count } else { 0 }
}

// A lane's owed cells have not all gone at a tick.
fn is_sending(t: Title, lane: u64, tick: u64) -> bool
    requires { lane < count_max }
    ensures { result ≡ ltb tick (get_or t.dropped lane 0 + get_or t.owed lane 0) }
{
    let from = t.dropped[lane as usize];
    let owed = t.owed[lane as usize];
    tick < from || tick - from < owed
}

// A lane is active, or still sends.
pub fn is_held(t: Title, lane: u64, tick: u64) -> bool
    requires { lane < count_max }
    ensures { result ≡ kept_held t lane tick }
{
    lane < ruling(t) || is_sending(t, lane, tick)
}

// How many lanes a title holds at a tick: the active ones, and of those above them the ones that still send. So a lane that
// resumed before its list had gone counts once.
fn held_at(t: Title, tick: u64) -> u64
    requires { t.film.cap ≤ count_max }
    ensures { Exactly (how_many (λ l. kept_held t l tick) t.film.cap) 0 count_max result }
{
    let cap = t.film.cap;
    let active = ruling(t).min(cap);
    let mut n = active;
    for lane in active..cap {
        n += u64::from(is_sending(t, lane, tick));
    }
    n
}

// How many lanes a title holds at a time.
pub fn title_held(t: Title, time: u64) -> u64
    requires { Readable t }
    ensures { Exactly (title_held t time) 0 count_max result }
{
    if t.mode == ABSENT {
        return 0;
    }
    held_at(t, tick_at(t, time))
}

// The title is open, or closing with a lane still held.
pub fn is_there(t: Title, time: u64) -> bool
    requires { Readable t }
    ensures { result ≡ is_there t time }
{
    t.mode == OPEN || 0 < title_held(t, time)
}

// How many lanes are held over all titles at a time.
pub fn lanes_held(s: State, time: u64) -> u64
    requires { AllReadable s }
    ensures { result ≡ lanes_held s time }
{
    let mut n = 0;
    for t in s.titles {
        n += title_held(t, time);
    }
    n
}
