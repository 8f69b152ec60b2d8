// A log played into a fresh agent, read by read, while its marks are drawn.

ghost use Rattle.std.specs.Prelude.{◌≡◌, true, length};
ghost use Rattle.rules.specs.Limits.{within, pool_min, pool_max};
ghost use Rattle.notice.specs.Decode.{read_at};
ghost use Rattle.agent_rows.specs.Layout.{row_length};
ghost use Rattle.row_calls.specs.inner.Steps.{Tested};
ghost use Rattle.strips.specs.Kept.{kept_length};
ghost use Rattle.log_marks.specs.Played.{DrawsStep, DrawsAll};

use crate::hearing::hear;
use agent_rows::ROW_LENGTH;
use frames::bands::View;
use logs::{PlayedLog, not_begun};
use notice::{Found, next_in};
use text::page::Page;

// One read more of the log.
fn step(
    page: &mut Page<'_>,
    kept: &mut [u64],
    v: View,
    was: &mut [u64],
    row: &mut [u64],
    place: usize,
    log: &[u8],
) -> PlayedLog
    requires kept_len { (length kept.old ≡ kept_length) × (length was.old ≡ row_length) }
    requires tested { Tested row.old }
    ensures { DrawsStep v row.old place (read_at log.now place) page.old kept.old row.new result page.new kept.new }
{
    match next_in(log, place) {
        Found::At(n, end) => {
            hear(page, kept, v, was, row, n);
            PlayedLog {
                place: end,
                more: true,
            }
        }
        Found::End | Found::Malformed => PlayedLog { place, more: false },
    }
}

// A log, played into a fresh agent in a row up to where its reading stops.
pub fn play(
    page: &mut Page<'_>,
    kept: &mut [u64],
    v: View,
    row: &mut [u64],
    pool: u64,
    log: &[u8],
) -> PlayedLog
    requires kept_len { (length kept.old ≡ kept_length) × (length row.old ≡ row_length) }
    requires pool_value { within pool_min pool_max pool ≡ true }
    ensures { DrawsAll v pool log.now page.old kept.old row.new result page.new kept.new }
{
    let mut was = [0; ROW_LENGTH];
    let mut played = not_begun(row, pool);
    while played.more {
        played = step(page, kept, v, &mut was, row, played.place, log);
    }
    played
}
