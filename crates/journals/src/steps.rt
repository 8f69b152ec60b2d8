// One step of a start: what stands at a place of the journal, and what the agent's row makes of it.

ghost use Rattle.std.specs.Prelude.{◌≡◌, ◌+◌, ◌-◌, ◌<◌, ◌≤◌, ◌^◌, eqb, length};
ghost use Rattle.rules.specs.Refusals.{pick};
ghost use Rattle.sums.specs.Crc.{sum_of};
ghost use Rattle.notice.specs.Decode.{read_of};
ghost use Rattle.row_calls.specs.Answers.{row_notice, row_after_notice};
ghost use Rattle.journals.specs.Start.{stage, ended_with, heard_one, after_summed, after_unsummed, at_stop, part_of, notice_done, step_at};
ghost use Rattle.journals.specs.Rows.{row_hears};

use super::torn::{had_kind, is_torn};
use super::{BLOCK_EVENTS, SUM, Start, Verdict};
use notice::{Found, next_in};
use notice_fields::numbers::get;
use row_calls::notices::take;
use rules::DONE;

// It has ended.
fn ended(start: Start, verdict: Verdict) -> Start
    ensures { result ≡ ended_with start verdict }
{
    Start { verdict, ..start }
}

// A notice of so many bytes is played.
fn heard_one(start: Start, size: usize) -> Start
    requires { (start.heard ≤ start.place) × ((0 < size) × (start.place + size < 2 ^ 64)) }
    ensures { result ≡ heard_one start size }
{
    let to = start.place + size;
    Start {
        place: to,
        heard: start.heard + 1,
        cut: to,
        ..start
    }
}

// A notice of so many bytes has no sum.
fn unsummed(start: Start, size: usize) -> Start
    requires { start.place + size < 2 ^ 64 }
    ensures { result ≡ after_unsummed start size }
{
    if start.behind < BLOCK_EVENTS {
        return Start {
            place: start.place + size,
            behind: start.behind + 1,
            ..start
        };
    }
    ended(start, Verdict::SumsShort)
}

// A notice with its sum: it is played where it has that sum.
fn summed(start: Start, row: &mut [u64], part: &[u8], sum: u64) -> Start
    requires { (start.heard ≤ start.place) × ((0 < length part.now) × (start.place + length part.now < 2 ^ 64)) }
    ensures { (result ≡ after_summed start (length part.now) (eqb (sum_of part.now) sum) (row_notice row.old (read_of part.now)))
        × (row.new ≡ pick (eqb (sum_of part.now) sum) (row_after_notice row.old (read_of part.now)) row.old) }
{
    if sums::sum(part) as u64 == sum {
        let answer = take(row, part);
        if answer == DONE {
            return heard_one(start, part.len());
        }
        return ended(start, Verdict::Refused(answer));
    }
    ended(start, Verdict::SumDiffers)
}

// A notice up to its end.
fn notice_at(start: Start, row: &mut [u64], window: &[u8], at: usize, end: usize, sum: u64) -> Start
    requires { (start.heard ≤ start.place) × ((at < end) × ((end ≤ length window.now) × (start.place + (length window.now - at) < 2 ^ 64))) }
    ensures { stage result row.new ≡ notice_done row_hears (end - at) (eqb (sum_of (part_of window.now at end)) sum)
        (stage start row.old) (read_of (part_of window.now at end)) }
{
    if start.heard < start.sums {
        return summed(start, row, &window[at..end], sum);
    }
    unsummed(start, end - at)
}

// Bytes that are no whole notice, to the journal's end.
fn stopped(start: Start, rest: &[u8], sum: u64) -> Start
    ensures { result ≡ ended_with start (at_stop start rest.now sum) }
{
    if is_torn(rest) {
        if start.heard < start.sums && had_kind(rest, sum) {
            return ended(start, Verdict::SumDiffers);
        }
        return ended(start, Verdict::Torn);
    }
    ended(start, Verdict::NoNotice)
}

// What stands at a place of a window, with the next notice's sum.
pub fn step(start: Start, row: &mut [u64], window: &[u8], at: usize, sum: u64) -> Start
    requires { (start.heard ≤ start.place) × ((at ≤ length window.now) × (start.place + (length window.now - at) < 2 ^ 64)) }
    ensures { stage result row.new ≡ step_at row_hears window.now sum (stage start row.old) at }
{
    match next_in(window, at) {
        Found::At(_, end) => notice_at(start, row, window, at, end, sum),
        Found::End => ended(start, Verdict::Heard),
        Found::Malformed => stopped(start, &window[at..], sum),
    }
}
