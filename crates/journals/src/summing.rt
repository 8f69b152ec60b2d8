// The sums of a journal's notices, made anew.

ghost use Rattle.std.specs.Prelude.{◌≡◌, ◌+◌, ◌≤◌, length};
ghost use Rattle.std.proofs.lemmas.List.Edits.{sets};
ghost use Rattle.sums.specs.Crc.{sum_of};
ghost use Rattle.notice_fields.specs.Numbers.{big_endian};
ghost use Rattle.notice.specs.Decode.{read_at};
ghost use Rattle.journals.specs.Start.{sum_bytes, part_of};
ghost use Rattle.journals.specs.Summing.{SumsLaid};
ghost use Rattle.journals.specs.inner.Turns.{end_found, laid_next};

use super::SUM;
use super::far::far;
use notice::{Found, next_in};
use notice_fields::numbers::put;
use sums::sum;

// The sum of a notice's bytes, from a place of the row on.
fn lay_sum(window: &[u8], place: usize, end: usize, out: &mut [u8], at: usize)
    requires { (place ≤ end) × ((end ≤ length window.now) × (at + sum_bytes ≤ length out.old)) }
    ensures { out.new ≡ sets out.old at (big_endian sum_bytes (sum_of (part_of window.now place end))) }
{
    let total = sum(&window[place..end]);
    put(out, at, SUM, u64::from(total));
}

// The sum of the notice at a place, laid from a place of the row on, and where that notice ends; none is laid where none is there.
fn sum_next(window: &[u8], place: usize, out: &mut [u8], at: usize) -> Option<usize>
    requires { at + sum_bytes ≤ length out.old }
    ensures { (result ≡ end_found (read_at window.now place))
        × (out.new ≡ laid_next window.now place at out.old (read_at window.now place)) }
{
    let Found::At(_, end) = next_in(window, place) else {
        return None;
    };
    lay_sum(window, place, end, out, at);
    Some(end)
}

// The sums of the notices of a window, laid at the start of a row, and how many bytes they have.
pub fn sums_in(window: &[u8], over: bool, out: &mut [u8]) -> usize
    ensures { SumsLaid window.now over out.old result out.new }
{
    let mut place = 0;
    let mut at = 0;
    while far(window.len(), place, over) && SUM <= out.len() - at {
        let Some(end) = sum_next(window, place, out, at) else {
            return at;
        };
        place = end;
        at += SUM;
    }
    at
}
