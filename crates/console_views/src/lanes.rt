// What each lane of a title shows, tick by tick, from the tick that holds a time on.

ghost use Rattle.std.specs.Prelude.{◌≤◌, ◌≡◌, leb};
ghost use Rattle.rules.specs.Limits.{both, within as inside, id_max, asked_max, length_max};
ghost use Rattle.rules.specs.Refusals.{done};
ghost use Rattle.story.specs.Kept.{state_ok};
ghost use Rattle.text.specs.Pages.{Puts};
ghost use Rattle.console_answers.specs.Entries.{each};
ghost use Rattle.console_limits.specs.Quantities.{ticks_min, ticks_most};
ghost use Rattle.console_views.specs.Lanes.{
  lanes_answer,
  shown_text,
  lane_cells,
  lane_line,
  lane_lines,
  lanes_told,
  lanes_reason,
  lanes_text,
};

use console_answers::entries::put_entry;
use console_commands::commands;
use console_limits::asked::put_asked;
use console_limits::quantities::{TICKS_MIN, TICKS_MOST};
use console_reasons::lanes::{last_in, put_missing};
use limits::state_ok;
use measures::lanes::is_there;
use measures::slots::title_of;
use measures::ticks::tick_at;
use rules::{ASKED_MAX, DONE, ID_MAX, NOT_THERE, OUTSIDE_LIMITS, TOO_EARLY, within};
use story::State;
use text::page::Page;

// The numbers of the question.
fn numbers_ok(s: State, id: u64, time: u64, ticks: u64) -> bool
    ensures { result ≡ both (state_ok s) (both (leb id id_max) (both (leb time asked_max) (inside ticks_min ticks_most ticks))) }
{
    state_ok(s) && id <= ID_MAX && time <= ASKED_MAX && within(TICKS_MIN, TICKS_MOST, ticks)
}

// What the question is answered, with 3 for a title that isn't there at its time.
pub fn lanes_verdict(s: State, id: u64, time: u64, ticks: u64) -> u8
    ensures { result ≡ lanes_answer s id time ticks }
{
    if numbers_ok(s, id, time, ticks) {
        let t = title_of(s, id);
        if time < t.last {
            return TOO_EARLY;
        }
        if is_there(t, time) {
            return DONE;
        }
        return NOT_THERE;
    }
    OUTSIDE_LIMITS
}

// What the lane question answers at a time, `.` where it refuses.
fn put_shown(page: &mut Page<'_>, s: State, id: u64, lane: u64, time: u64)
    ensures { Puts page.old (shown_text s id lane time) page.new }
{
    let shown = scheduler::lane(s, id, lane, time);
    let answer = shown.answer;
    if answer == DONE {
        put_entry(page, shown.cell);
    } else {
        page.put(b" .");
    }
}

// The same in so many ticks of a length in ms, from a time on.
fn put_row(page: &mut Page<'_>, s: State, id: u64, lane: u64, time: u64, tick: u64, ticks: u64)
    requires { (time ≤ asked_max) × ((tick ≤ length_max) × (ticks ≤ ticks_most)) }
    ensures { Puts page.old (lane_cells s id lane time tick ticks) page.new }
{
    for j in 0..ticks {
        put_shown(page, s, id, lane, time + j * tick);
    }
}

// The line of a lane.
fn put_line(page: &mut Page<'_>, s: State, id: u64, lane: u64, time: u64, tick: u64, ticks: u64)
    requires { (time ≤ asked_max) × ((tick ≤ length_max) × (ticks ≤ ticks_most)) }
    ensures { Puts page.old (lane_line s id time tick ticks lane) page.new }
{
    page.put(b"\nlane ");
    page.put_number(lane);
    page.put(b":");
    put_row(page, s, id, lane, time, tick, ticks);
}

// A line for each of so many lanes.
fn put_lines(page: &mut Page<'_>, s: State, id: u64, time: u64, tick: u64, ticks: u64, lanes: u64)
    requires { (time ≤ asked_max) × ((tick ≤ length_max) × (ticks ≤ ticks_most)) }
    ensures { Puts page.old (each (lane_line s id time tick ticks) lanes) page.new }
{
    for lane in 0..lanes {
        put_line(page, s, id, lane, time, tick, ticks);
    }
}

// The tick that holds the time, and a line for each lane below the cap.
fn put_all(page: &mut Page<'_>, s: State, id: u64, time: u64, ticks: u64)
    requires { lanes_answer s id time ticks ≡ done }
    ensures { Puts page.old (lane_lines s id time ticks) page.new }
{
    let t = title_of(s, id);
    let tick = scheme::tick(t.film.kind, t.film.length, t.film.floor, t.film.cap);
    put_entry(page, tick_at(t, time));
    put_lines(page, s, id, time, tick, ticks, t.film.cap);
}

// What the question is answered.
fn put_told(page: &mut Page<'_>, s: State, id: u64, time: u64, ticks: u64)
    ensures { Puts page.old (lanes_told s id time ticks) page.new }
{
    let answer = lanes_verdict(s, id, time, ticks);
    if answer == DONE {
        page.put(b"0");
        put_all(page, s, id, time, ticks);
    } else {
        words::put_refusal(page, answer, 0);
    }
}

// What stands behind a refusal.
fn put_reason(page: &mut Page<'_>, answer: u8, s: State, id: u64, time: u64, ticks: u64)
    ensures { Puts page.old (lanes_reason answer s id time ticks) page.new }
{
    if answer == NOT_THERE {
        put_missing(page, outlook::presence(s, id, time));
    } else {
        let numbers = [id, time, ticks];
        put_asked(page, answer, commands::LANES, &numbers, last_in(s, id));
    }
}

// The answer, and what stands behind it.
pub fn put_lanes(page: &mut Page<'_>, s: State, id: u64, time: u64, ticks: u64)
    ensures { Puts page.old (lanes_text s id time ticks) page.new }
{
    put_told(page, s, id, time, ticks);
    put_reason(page, lanes_verdict(s, id, time, ticks), s, id, time, ticks);
}
