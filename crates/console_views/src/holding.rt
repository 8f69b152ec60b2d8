// The lanes of a title: its count, how many it holds, and until when each that is no longer active still sends.

ghost use Rattle.std.specs.Prelude.{◌≤◌, ◌<◌, ◌≡◌};
ghost use Rattle.rules.specs.Limits.{count_max};
ghost use Rattle.measures.specs.Readable.{Filmed};
ghost use Rattle.moments.specs.Searched.{Timed};
ghost use Rattle.text.specs.Pages.{Puts};
ghost use Rattle.console_answers.specs.Entries.{each};
ghost use Rattle.console_views.specs.Titles.{
  range_text,
  count_text,
  still_sends,
  gone_tick,
  until_text,
  sending_text,
  holds_text,
};

use clocks::put_clock;
use measures::lanes::{is_held, ruling, title_held};
use measures::ticks::tick_at;
use moments::PAST;
use moments::releases::release_of;
use scheme::STEADY;
use story::{OPEN, Title};
use text::page::Page;

// The counts that a title may have, where they are more than one.
fn put_range(page: &mut Page<'_>, t: Title)
    ensures { Puts page.old (range_text t) page.new }
{
    if t.film.kind != STEADY {
        page.put(b" of ");
        page.put_number(t.film.floor);
        page.put(b" to ");
        page.put_number(t.film.cap);
    }
}

pub fn put_count(page: &mut Page<'_>, t: Title)
    ensures { Puts page.old (count_text t) page.new }
{
    if t.mode == OPEN {
        page.put(b", ");
        page.put_number(t.count);
        page.put(b" lanes");
        put_range(page, t);
    } else {
        page.put(b", closing");
    }
}

// Whether a lane is no longer active and still sends at a time.
#[tactic(auto, unfolding(crate::specs::Titles::still_sends))]
fn still_sends(t: Title, time: u64, lane: u64) -> bool
    requires filmed { Filmed t.film }
    requires lane_lt_count_max { lane < count_max }
    ensures { result ≡ still_sends t time lane }
{
    ruling(t) <= lane && is_held(t, lane, tick_at(t, time))
}

// The tick from which on a lane's list has gone.
fn gone_tick(t: Title, lane: u64) -> u64
    requires timed { Timed t }
    requires lane_lt_count_max { lane < count_max }
    ensures { result ≡ gone_tick t lane }
{
    let from = t.dropped[lane as usize];
    let owed = t.owed[lane as usize];
    from + owed
}

// Until when a lane sends.
fn put_until(page: &mut Page<'_>, t: Title, lane: u64)
    requires timed { Timed t }
    requires lane_lt_count_max { lane < count_max }
    ensures { Puts page.old (until_text t lane) page.new }
{
    let gone = gone_tick(t, lane);
    if gone <= PAST {
        let tick = scheme::tick(t.film.kind, t.film.length, t.film.floor, t.film.cap);
        page.put(b" until ");
        put_clock(page, release_of(t, tick, lane));
    } else {
        page.put(b" past the clock");
    }
}

// A lane, where it still sends.
fn put_sending(page: &mut Page<'_>, t: Title, time: u64, lane: u64)
    requires timed { Timed t }
    requires lane_lt_count_max { lane < count_max }
    ensures { Puts page.old (sending_text t time lane) page.new }
{
    if still_sends(t, time, lane) {
        page.put(b", lane ");
        page.put_number(lane);
        put_until(page, t, lane);
    }
}

// Those of so many lanes that still send.
fn put_each(page: &mut Page<'_>, t: Title, time: u64, lanes: u64)
    requires timed { Timed t }
    requires lanes_le_count_max { lanes ≤ count_max }
    ensures { Puts page.old (each (sending_text t time) lanes) page.new }
{
    for lane in 0..lanes {
        put_sending(page, t, time, lane);
    }
}

// How many lanes it holds at a time, and those of them that still send.
pub fn put_holds(page: &mut Page<'_>, t: Title, time: u64)
    requires { Timed t }
    ensures { Puts page.old (holds_text t time) page.new }
{
    page.put(b", holds ");
    page.put_number(title_held(t, time));
    put_each(page, t, time, t.film.cap);
}
