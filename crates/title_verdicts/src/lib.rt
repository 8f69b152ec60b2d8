// What a title alone answers to an event, in 01's order: the refusals behind those of the numbers and of the clock, and before the
// want of lanes. The functions require a title whose numbers are within their limits, which `limits::state_ok` gives.
#![tactic(auto, using(measures::proofs::Within::readable), unfolding(rules::specs::Refusals::first_hit))]

ghost use Rattle.std.specs.Prelude.{◌≤◌, ◌≡◌, true};
ghost use Rattle.rules.specs.Limits.{asked_max};
ghost use Rattle.rules.specs.Refusals.{first_hit};
ghost use Rattle.rules.specs.Told.{told};
ghost use Rattle.story.specs.declared.Act.TheVariants.{Opens, Changes, Closes, Doors};
ghost use Rattle.story.specs.Story.{is_same_doors};
ghost use Rattle.story.specs.Kept.{is_shut, title_ok};
ghost use Rattle.story.specs.Calls.{at_slot_start};
ghost use Rattle.measures.specs.Readable.{Filmed};
ghost use Rattle.title_verdicts.specs.Titled.{title_rules, standing_rules, turn_rules, count_rules};
ghost use Rattle.title_verdicts.specs.Titled.{retune_rules, doors_rules};

use measures::lanes::is_there;
use measures::ticks::{at_tick_start, settled_at, tick_at};
use rules::answers::Refusal;
use scheme::{STEADY, starts};
use story::{Act, CLOSING, Film, HELD, Title};

// Whether a time is a slot start of a count of a title.
#[inline(always)]
fn at_slot_start(t: Title, count: u64, time: u64) -> bool
    requires filmed { Filmed t.film }
    requires count_le_cap { count ≤ t.film.cap }
    ensures { result ≡ at_slot_start t count time }
{
    let film = t.film;
    at_tick_start(t, time) && starts(film.kind, film.floor, film.cap, count, tick_at(t, time))
}

// Of an opening, for the title that its id has so far.
fn open_verdict(t: Title, film: Film, count: u64, time: u64) -> Result<(), Refusal>
    requires { title_ok t ≡ true }
    ensures { told result ≡ first_hit (title_rules t time (Opens film count)) }
{
    if is_there(t, time) {
        return Err(Refusal::IdTaken);
    }
    if film.cap < film.floor {
        return Err(Refusal::FloorAboveCap);
    }
    if count < film.floor {
        return Err(Refusal::BelowFloor);
    }
    if film.cap < count {
        return Err(Refusal::AboveCap);
    }
    Ok(())
}

// Whether a title can have an event other than an opening at a time at all.
#[inline(always)]
fn standing(t: Title, time: u64) -> Result<(), Refusal>
    requires { title_ok t ≡ true }
    ensures { told result ≡ first_hit (standing_rules t time) }
{
    if !is_there(t, time) {
        return Err(Refusal::NotThere);
    }
    if t.mode == CLOSING {
        return Err(Refusal::IsClosing);
    }
    Ok(())
}

// Whether an open title has a turn at a time, a slot start of a count.
#[inline(always)]
fn turn_verdict(t: Title, count: u64, time: u64) -> Result<(), Refusal>
    requires filmed { Filmed t.film }
    requires count_le_cap { count ≤ t.film.cap }
    ensures { told result ≡ first_hit (turn_rules t count time) }
{
    if time == t.last {
        Err(Refusal::SecondEvent)
    } else if at_slot_start(t, count, time) {
        Ok(())
    } else {
        Err(Refusal::NotAtSlot)
    }
}

// Whether an open title can retune at a time, a slot start of a count.
fn retune_verdict(t: Title, count: u64, time: u64) -> Result<(), Refusal>
    requires filmed { Filmed t.film }
    requires count_le_cap { (count ≤ t.film.cap) × (t.tuned ≤ asked_max) }
    ensures { told result ≡ first_hit (retune_rules t count time) }
{
    if t.last == time {
        return Err(Refusal::SecondEvent);
    }
    if time < settled_at(t) {
        return Err(Refusal::TooSoon);
    }
    turn_verdict(t, count, time)
}

// Whether an open title can change to a count at a time: a skip-forward title never can.
fn count_verdict(t: Title, count: u64, time: u64) -> Result<(), Refusal>
    requires filmed { Filmed t.film }
    requires count_le_cap { (t.count ≤ t.film.cap) × (t.tuned ≤ asked_max) }
    ensures { told result ≡ first_hit (count_rules t count time) }
{
    if t.film.kind == STEADY {
        return Err(Refusal::IsSteady);
    }
    if count < t.film.floor {
        return Err(Refusal::BelowFloor);
    }
    if t.film.cap < count {
        return Err(Refusal::AboveCap);
    }
    if count == t.count {
        return Err(Refusal::Unchanged);
    }
    retune_verdict(t, t.count.min(count), time)
}

// Of a change.
fn change_verdict(t: Title, count: u64, time: u64) -> Result<(), Refusal>
    requires { title_ok t ≡ true }
    ensures { told result ≡ first_hit (title_rules t time (Changes count)) }
{
    standing(t, time)?;
    count_verdict(t, count, time)
}

// Of a close.
fn close_verdict(t: Title, time: u64) -> Result<(), Refusal>
    requires { title_ok t ≡ true }
    ensures { told result ≡ first_hit (title_rules t time Closes) }
{
    standing(t, time)?;
    turn_verdict(t, t.film.floor, time)
}

// Whether the doors of a title stand already as an event wants them.
fn same_doors(t: Title, held: bool) -> bool
    ensures { result ≡ is_same_doors (Doors held) (is_shut t) }
{
    let mark = t.mark;
    if held { mark == HELD } else { mark != HELD }
}

// Whether the doors of an open title can be held at a time, or lifted: those of a skip-forward title never can.
fn held_verdict(t: Title, held: bool, time: u64) -> Result<(), Refusal>
    requires filmed { Filmed t.film }
    requires count_le_cap { t.count ≤ t.film.cap }
    ensures { told result ≡ first_hit (doors_rules t held time) }
{
    let kind = t.film.kind;
    if kind == STEADY {
        return Err(Refusal::IsSteady);
    }
    if same_doors(t, held) {
        return Err(Refusal::DoorsUnchanged);
    }
    turn_verdict(t, t.count, time)
}

// Of a hold, or of a lift.
fn doors_verdict(t: Title, held: bool, time: u64) -> Result<(), Refusal>
    requires { title_ok t ≡ true }
    ensures { told result ≡ first_hit (title_rules t time (Doors held)) }
{
    standing(t, time)?;
    held_verdict(t, held, time)
}

// Of any event.
pub fn title_verdict(t: Title, time: u64, act: Act) -> Result<(), Refusal>
    requires { title_ok t ≡ true }
    ensures { told result ≡ first_hit (title_rules t time act) }
{
    match act {
        Act::Opens { film, count } => open_verdict(t, film, count, time),
        Act::Changes { count } => change_verdict(t, count, time),
        Act::Closes => close_verdict(t, time),
        Act::Doors { held } => doors_verdict(t, held, time),
    }
}
