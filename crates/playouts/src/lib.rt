// What the twelve lanes of a title carry over its latest opening in a log, as text: a line for each tick. The log is played twice, read
// by read: once for the title's latest opening, once for its lanes. No public function of this file has a `requires`; those of `follow`
// and `window` are for the crates above, and say in one what they build on.
#![tactic(auto)]

mod cells;
pub mod follow;
mod given;
pub mod lines;
pub mod window;

ghost use Rattle.std.specs.Prelude.{◌*◌, ◌≡◌, length};
ghost use Rattle.rules.specs.Limits.{lane_places};
ghost use Rattle.text.specs.Output.{Written};
ghost use Rattle.text.specs.Pages.{Puts};
ghost use Rattle.judging.specs.Record.{ticks_max};
ghost use Rattle.playouts.specs.Playout.{playout_answer};
ghost use Rattle.playouts.specs.Lines.{playout_text};

use given::in_limits;
use judging::TICKS_MAX;
use lines::put_refused;
use rules::{LANE_PLACES, OUTSIDE_LIMITS};
use text::page::Page;
use window::{tell, window_answer};

// The numbers of as many ticks as may be asked for.
const NUMBERS_MAX: usize = TICKS_MAX * LANE_PLACES;

// The `ensures` gives the length, which lending the array as a slice needs.
fn blank_numbers() -> [u16; NUMBERS_MAX]
    ensures { length result ≡ ticks_max * lane_places }
{
    [0; NUMBERS_MAX]
}

// What is answered of a title in a log played into a fresh agent of a pool, and of so many ticks from tick `from` of its latest opening
// on. In this order: 1 for a pool, a title, a first tick or a number of ticks outside its limits, 11 for a log with a malformed or cut
// notice in it, 3 for a title that was never opened in it, 1 for a last tick that begins past the last moment that may be asked about.
pub fn answer_of(pool: u64, log: &[u8], title: u64, from: u64, ticks: u64) -> u8
    ensures { result ≡ playout_answer pool log.now title from ticks }
{
    if in_limits(pool, title, from, ticks) {
        return window_answer(pool, log, title, from + ticks - 1);
    }
    OUTSIDE_LIMITS
}

// A line for each tick with a number for each lane, or the refusal's one.
fn put_window(page: &mut Page<'_>, pool: u64, log: &[u8], title: u64, from: u64, ticks: u64)
    ensures { Puts page.old (playout_text pool log.now title from ticks) page.new }
{
    if in_limits(pool, title, from, ticks) {
        let mut numbers = blank_numbers();
        let n = ticks as usize * LANE_PLACES;
        tell(page, pool, log, title, from, ticks, &mut numbers[..n]);
    } else {
        put_refused(page, OUTSIDE_LIMITS);
    }
}

// So it is written at the start of a lent row. What has no room is left out.
pub fn put_playout(
    out: &mut [u8],
    pool: u64,
    log: &[u8],
    title: u64,
    from: u64,
    ticks: u64,
) -> usize
    ensures { Written out.old 0 (playout_text pool log.now title from ticks) out.new result }
{
    let mut page = Page::new(out);
    put_window(&mut page, pool, log, title, from, ticks);
    page.end()
}
