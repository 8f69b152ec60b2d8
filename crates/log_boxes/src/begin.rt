// Whether a box may begin at a moment of a title in a log, and how long it is until the next admission.

ghost use Rattle.std.specs.Prelude.{◌≤◌, ◌≡◌};
ghost use Rattle.rules.specs.Limits.{asked_max};
ghost use Rattle.playouts.specs.inner.Steps.{Opened};
ghost use Rattle.log_boxes.specs.Box.{box_limits, box_answer, BeginsAt};
ghost use Rattle.log_boxes.specs.inner.Steps.{last_tick};

use crate::Beginning;
use grid::pow2;
use measures::ticks::tick_at;
use playouts::follow::end_of;
use playouts::window::window_answer;
use rules::{ASKED_MAX, DONE, ID_MAX, OUTSIDE_LIMITS, POOL_MAX, POOL_MIN, within};
use story::Title;
use waiting::report_of;

fn in_limits(pool: u64, title: u64, time: u64) -> bool
    ensures { result ≡ box_limits pool title time }
{
    within(POOL_MIN, POOL_MAX, pool) && title <= ID_MAX && time <= ASKED_MAX
}

// The last tick of a box that begins in the tick that holds a moment; of a title that was never opened 0.
fn last_tick(t: Title, time: u64) -> u64
    requires opened { Opened t }
    requires time_le_asked_max { time ≤ asked_max }
    ensures { result ≡ last_tick t time }
{
    let cap = t.film.cap;
    if cap == 0 {
        return 0;
    }
    tick_at(t, time) + pow2(cap) - 1
}

pub fn answer_of(pool: u64, log: &[u8], title: u64, time: u64) -> u8
    ensures { result ≡ box_answer pool log.now title time }
{
    if in_limits(pool, title, time) {
        let end = end_of(pool, log, title);
        let t = end.title;
        return window_answer(pool, log, title, last_tick(t, time));
    }
    OUTSIDE_LIMITS
}

// The wait of one who arrives at a moment, or at the opening if that is later, where the box is not refused.
pub fn wait_of(pool: u64, log: &[u8], title: u64, time: u64) -> Beginning
    requires { box_answer pool log.now title time ≡ 0 }
    ensures { BeginsAt pool log.now title time result }
{
    let end = end_of(pool, log, title);
    let from = time.max(end.title.opened);
    let row = [from];
    let report = report_of(pool, log, title, &row);
    let waits = report.waits;
    Beginning {
        answer: DONE,
        follows: 0 < waits.admitted,
        from,
        wait: waits.longest,
    }
}
