// Where a time lies in a title's ticks (01, "Cells, ticks, slots"), and when its card has settled (02, 9).

ghost use Rattle.std.specs.Prelude.{◌-◌, ◌≤◌, ◌≡◌};
ghost use Rattle.rules.specs.Limits.{asked_max};
ghost use Rattle.grid.specs.Bounds.{Exactly};
ghost use Rattle.story.specs.Kept.{tick_at, at_tick_start, settled_at};
ghost use Rattle.measures.specs.Readable.{Filmed};

use story::Title;

// How far a moment lies after another, 0 where it lies before.
pub fn since(from: u64, moment: u64) -> u64
    ensures { result ≡ moment - from }
{
    moment.saturating_sub(from)
}

// The tick of a title that holds a time.
pub fn tick_at(t: Title, time: u64) -> u64
    requires { Filmed t.film }
    ensures { Exactly (tick_at t time) 0 time result }
{
    time.saturating_sub(t.opened)
        / scheme::tick(t.film.kind, t.film.length, t.film.floor, t.film.cap)
}

// Whether a time is the start of a tick.
pub fn at_tick_start(t: Title, time: u64) -> bool
    requires { Filmed t.film }
    ensures { result ≡ at_tick_start t time }
{
    time.saturating_sub(t.opened)
        % scheme::tick(t.film.kind, t.film.length, t.film.floor, t.film.cap)
        == 0
}

// The moment from which on a title may change again: one slot of its floor after its latest opening or change.
pub fn settled_at(t: Title) -> u64
    requires filmed { Filmed t.film }
    requires tuned_le_asked_max { t.tuned ≤ asked_max }
    ensures { result ≡ settled_at t }
{
    let slot = scheme::slot(t.film.kind, t.film.floor, t.film.cap, t.film.floor)
        * scheme::tick(t.film.kind, t.film.length, t.film.floor, t.film.cap);
    t.tuned + slot
}
