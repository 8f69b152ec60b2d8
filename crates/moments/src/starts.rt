// The times at which a title's rules permit an event (01, "Cells, ticks, slots" and "Events"; 02, 9).

ghost use Rattle.std.specs.Prelude.{suc, ◌+◌, ◌^◌, ◌≤◌, ◌≡◌};
ghost use Rattle.rules.specs.Limits.{asked_max, event_time_max};
ghost use Rattle.grid.specs.Bounds.{Exactly};
ghost use Rattle.story.specs.Calls.{at_slot_start};
ghost use Rattle.measures.specs.Readable.{Filmed};
ghost use Rattle.moments.specs.Searched.{Found, slot_ms, slot_most, turns, permits};

use measures::ticks::{settled_at, since};
use story::Title;

// A slot of a count of a title, in ms.
fn slot_ms(t: Title, count: u64) -> u64
    requires filmed { Filmed t.film }
    requires count_le_cap { count ≤ t.film.cap }
    ensures { Exactly (slot_ms t count) 1 slot_most result }
{
    scheme::slot(t.film.kind, t.film.floor, t.film.cap, count)
        * scheme::tick(t.film.kind, t.film.length, t.film.floor, t.film.cap)
}

// The first slot start of a count from a time on. Times up to the opening count as slot starts.
pub fn next_start(t: Title, count: u64, from: u64) -> u64
    requires filmed { Filmed t.film }
    requires count_le_cap { (count ≤ t.film.cap) × (from ≤ 2 ^ 42) }
    ensures { Found (at_slot_start t count) from (from + slot_most) result }
{
    let slot = slot_ms(t, count);
    let over = since(t.opened, from) % slot;
    if over == 0 {
        return from;
    }
    from + (slot - over)
}

// The first slot start of a count from a time on that is not the moment of a title's last event.
pub fn turn_from(t: Title, count: u64, from: u64) -> u64
    requires filmed { Filmed t.film }
    requires count_le_cap { (count ≤ t.film.cap) × ((t.last ≤ asked_max) × (from ≤ 2 ^ 42)) }
    ensures { Found (turns t count) from (2 ^ 43) result }
{
    let start = next_start(t, count, from);
    if start == t.last {
        return next_start(t, count, start + 1);
    }
    start
}

// The first time from another on that a title's rules permit for a change at a slot start of a count: settled, and not
// the moment of its last event.
pub fn permitted_from(t: Title, count: u64, from: u64) -> u64
    requires filmed { Filmed t.film }
    requires count_le_cap { (count ≤ t.film.cap) × ((t.last ≤ asked_max) × (t.tuned ≤ asked_max)) }
    requires from_bound { from ≤ suc event_time_max }
    ensures { Found (permits t count) from (2 ^ 43) result }
{
    turn_from(t, count, from.max(settled_at(t)))
}
