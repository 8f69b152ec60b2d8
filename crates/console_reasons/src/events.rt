// What stands behind the refusal of an event: what can be typed in its place.

ghost use Rattle.std.specs.Prelude.{◌≡◌};
ghost use Rattle.story.specs.Story.{event};
ghost use Rattle.story.specs.declared.Act.TheVariants.{Opens};
ghost use Rattle.text.specs.Pages.{Puts};
ghost use Rattle.console_reasons.specs.Events.{
  event_out,
  clock_words,
  id_is_open,
  taken_text,
  start_text,
  later_text,
  accepted_text,
  room_words,
  room_text,
  reason_text,
};

use crate::lanes::put_missing;
use console_commands::commands;
use console_limits::asked::put_last;
use console_limits::outside::put_out;
use rules::{
    DONE, EVENT_TIME_MAX, ID_MAX, ID_TAKEN, NO_LANES, NOT_AT_SLOT, NOT_THERE, OUTSIDE_LIMITS,
    TOO_EARLY,
};
use scheme::STEADY;
use story::{Act, Event, Film, OPEN, State};
use text::page::Page;

// The first number of an opening that is out of its limits.
fn put_opening_out(page: &mut Page<'_>, id: u64, time: u64, film: Film, count: u64)
    ensures { Puts page.old (event_out (event id time (Opens film count))) page.new }
{
    if film.kind == STEADY {
        let numbers = [id, time, film.length, count];
        put_out(page, commands::SKIP, &numbers);
    } else {
        let numbers = [id, time, film.length, film.floor, film.cap, count];
        put_out(page, commands::OPEN, &numbers);
    }
}

// The first number of any event.
fn put_event_out(page: &mut Page<'_>, e: Event)
    ensures { Puts page.old (event_out e) page.new }
{
    let id = e.title;
    let time = e.time;
    let act = e.act;
    let numbers = [id, time];
    match act {
        Act::Opens { film, count } => put_opening_out(page, id, time, film, count),
        Act::Changes { count } => {
            let changed = [id, time, count];
            put_out(page, commands::CHANGE, &changed);
        }
        Act::Closes => put_out(page, commands::CLOSE, &numbers),
        Act::Doors { held: _ } => put_out(page, commands::CLOSE, &numbers),
    }
}

// A time on the clock behind some words, or other words where the clock ends before it.
fn put_clock_words(page: &mut Page<'_>, time: u64, words: &[u8], others: &[u8])
    ensures { Puts page.old (clock_words time words.now others.now) page.new }
{
    if time <= EVENT_TIME_MAX {
        page.put(words);
        page.put_number(time);
    } else {
        page.put(others);
    }
}

// Whether the title of an id is open.
fn is_open(s: State, id: u64) -> bool
    ensures { result ≡ id_is_open s id }
{
    id <= ID_MAX && s.titles[id as usize].mode == OPEN
}

// When an id comes free.
fn put_taken(page: &mut Page<'_>, s: State, id: u64, time: u64)
    ensures { Puts page.old (taken_text s id time) page.new }
{
    if is_open(s, id) {
        page.put(b", its title is open");
    } else {
        let free = outlook::id_free_from(s, id, time);
        put_clock_words(
            page,
            free,
            b", free from ",
            b", not free before the clock ends",
        );
    }
}

// The next permitted slot start.
fn put_start(page: &mut Page<'_>, s: State, e: Event)
    ensures { Puts page.old (start_text s e) page.new }
{
    put_clock_words(
        page,
        outlook::start_from(s, e),
        b", next is ",
        b", the clock has no later one",
    );
}

// The first time at which a change is accepted, where that is not the first with room.
#[tactic(auto, unfolding(crate::specs::Events::later_text), using(text::proofs::Pages::nothing))]
fn put_later(page: &mut Page<'_>, s: State, e: Event)
    ensures { Puts page.old (later_text s e) page.new }
{
    let room = outlook::room_from(s, e);
    let w = outlook::when(s, e);
    if w.answer == DONE && w.time != room {
        page.put(b", accepted at ");
        page.put_number(w.time);
    }
}

fn put_accepted(page: &mut Page<'_>, s: State, e: Event)
    ensures { Puts page.old (accepted_text s e e.act) page.new }
{
    let act = e.act;
    match act {
        Act::Opens { film: _, count: _ } => {}
        Act::Changes { count: _ } => put_later(page, s, e),
        Act::Closes => {}
        Act::Doors { held: _ } => {}
    }
}

// From when on there is room.
fn put_room_words(page: &mut Page<'_>, s: State, e: Event)
    ensures { Puts page.old (room_words s e) page.new }
{
    let room = outlook::room_from(s, e);
    if room <= EVENT_TIME_MAX {
        page.put(b", room from ");
        page.put_number(room);
        put_accepted(page, s, e);
    } else {
        page.put(b", no later time has room");
    }
}

// How many lanes are free, and from when on there is room.
fn put_room(page: &mut Page<'_>, s: State, e: Event)
    ensures { Puts page.old (room_text s e) page.new }
{
    let free = outlook::free_lanes(s, e.time);
    page.put(b", ");
    page.put_number(free);
    page.put(b" free");
    put_room_words(page, s, e);
}

// By the answer that the event got in a state.
pub fn put_reason(page: &mut Page<'_>, answer: u8, s: State, e: Event)
    ensures { Puts page.old (reason_text answer s e) page.new }
{
    if answer == OUTSIDE_LIMITS {
        put_event_out(page, e);
    } else if answer == TOO_EARLY {
        put_last(page, s.last);
    } else if answer == NOT_THERE {
        put_missing(page, outlook::presence(s, e.title, e.time));
    } else if answer == ID_TAKEN {
        put_taken(page, s, e.title, e.time);
    } else if answer == NOT_AT_SLOT {
        put_start(page, s, e);
    } else if answer == NO_LANES {
        put_room(page, s, e);
    }
}
