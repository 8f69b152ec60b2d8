// The lanes of a title as a small picture: a line for each lane, a sign for each tick.

ghost use Rattle.std.specs.Prelude.{◌≤◌, ◌<◌, ◌≡◌};
ghost use Rattle.rules.specs.Limits.{count_max, asked_max};
ghost use Rattle.text.specs.Pages.{Puts};
ghost use Rattle.console_answers.specs.Entries.{each};
ghost use Rattle.console_drawing.specs.Pictures.{
  sign_text,
  signs_text,
  lane_head,
  sign_line,
  is_drawable,
  title_picture,
};

use console_limits::quantities::TICKS_MOST;
use limits::state_ok;
use measures::lanes::{is_held, ruling};
use measures::slots::title_of;
use measures::ticks::tick_at;
use rules::ID_MAX;
use story::{ABSENT, State, Title};
use text::page::Page;

// Numbers from here on have two digits.
const TWO_DIGITS: u64 = 10;

// A lane in a tick: active, sending what it owes, or not held. The bytes are signs of UTF-8: full, hatched, and a point in the middle.
fn put_sign(page: &mut Page<'_>, t: Title, lane: u64, tick: u64)
    requires { lane < count_max }
    ensures { Puts page.old (sign_text t lane tick) page.new }
{
    if lane < ruling(t) {
        page.put(b"\xe2\x96\x88");
    } else if is_held(t, lane, tick) {
        page.put(b"\xe2\x96\x92");
    } else {
        page.put(b"\xc2\xb7");
    }
}

// The signs of a lane, from a tick on.
fn put_signs(page: &mut Page<'_>, t: Title, lane: u64, tick: u64)
    requires lane_lt_count_max { lane < count_max }
    requires tick_le_asked_max { tick ≤ asked_max }
    ensures { Puts page.old (signs_text t lane tick) page.new }
{
    for j in 0..TICKS_MOST {
        put_sign(page, t, lane, tick + j);
    }
}

// What stands before them, of one width for every lane.
fn put_head(page: &mut Page<'_>, lane: u64)
    ensures { Puts page.old (lane_head lane) page.new }
{
    page.put(b"lane ");
    page.put_number(lane);
    if lane < TWO_DIGITS {
        page.put(b"  ");
    } else {
        page.put(b" ");
    }
}

// The line of a lane.
fn put_line(page: &mut Page<'_>, t: Title, tick: u64, lane: u64)
    requires lane_lt_count_max { lane < count_max }
    requires tick_le_asked_max { tick ≤ asked_max }
    ensures { Puts page.old (sign_line t tick lane) page.new }
{
    put_head(page, lane);
    put_signs(page, t, lane, tick);
    page.put(b"\n");
}

// A line for each of so many lanes.
fn put_lines(page: &mut Page<'_>, t: Title, tick: u64, lanes: u64)
    requires lanes_le_count_max { lanes ≤ count_max }
    requires tick_le_asked_max { tick ≤ asked_max }
    ensures { Puts page.old (each (sign_line t tick) lanes) page.new }
{
    for lane in 0..lanes {
        put_line(page, t, tick, lane);
    }
}

// Whether there is a title of an id to draw.
#[tactic(auto, unfolding(crate::specs::Pictures::is_drawable))]
fn is_drawable(s: State, id: u64) -> bool
    ensures { result ≡ is_drawable s id }
{
    id <= ID_MAX && state_ok(s) && title_of(s, id).mode != ABSENT
}

// The lanes of a title, from the tick of the last accepted event on.
pub fn put_picture(page: &mut Page<'_>, s: State, id: u64)
    ensures { Puts page.old (title_picture s id) page.new }
{
    if is_drawable(s, id) {
        let t = title_of(s, id);
        put_lines(page, t, tick_at(t, s.last), t.film.cap);
    }
}
