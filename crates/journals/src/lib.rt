// The start of a head-end: its journal, which comes in windows, is played into an agent that is lent as a row, in place, and each notice is
// held against its sum. No public function has a `requires`: any numbers, any row and any bytes have an answer.
#![tactic(auto)]

ghost use Rattle.std.specs.Prelude.{◌≡◌, true, length};
ghost use Rattle.journals.specs.Start.{begun_with, is_going, is_good, is_ready_at, sum_at, sums_length, stage, view, hears_in};
ghost use Rattle.journals.specs.Rows.{is_counted, row_hears, row_heard};

use far::far;
use notice_fields::numbers::get;
use steps::step;

mod far;
mod steps;
pub mod summing;
mod torn;

// The bytes of a sum.
pub const SUM: usize = sums::SIZE;

// The bytes of a block of input.
pub const BLOCK: usize = 65_536;

// As many events as one block can hold: `hold 0 0` with its newline, the shortest, has 9 bytes.
pub const BLOCK_EVENTS: usize = BLOCK / 9;

// What a start has found.
#[derive(Clone, Copy)]
pub enum Verdict {
    // nothing yet: it goes on
    Hearing,
    // the journal ends behind a whole notice
    Heard,
    // it ends in fewer bytes than their notice has
    Torn,
    // bytes that are no notice
    NoNotice,
    // a notice that has not its sum
    SumDiffers,
    // a notice that the agent refuses, with its answer
    Refused(u8),
    // more notices behind the last sum than one block of input can hold
    SumsShort,
    // no sums at all, of a journal that isn't empty
    SumsMissing,
}

// How far a start has come.
#[derive(Clone, Copy)]
pub struct Start {
    // the byte of the journal at which it stands
    pub place: usize,
    // the notices that were played
    pub heard: usize,
    // the whole notices behind the last sum
    pub behind: usize,
    // the byte behind the last notice that was played
    pub cut: usize,
    // the whole sums that there are
    pub sums: usize,
    pub verdict: Verdict,
}

// A start of which nothing is played, by how many bytes journal and sums have, and whether the sums are there at all.
pub fn begun(journal: usize, there: bool, sums: usize) -> Start
    ensures { result ≡ begun_with journal there sums }
{
    let verdict = if 0 < journal && !there {
        Verdict::SumsMissing
    } else {
        Verdict::Hearing
    };
    Start {
        place: 0,
        heard: 0,
        behind: 0,
        cut: 0,
        sums: sums / SUM,
        verdict,
    }
}

// Whether it goes on with the next window.
pub fn going(start: Start) -> bool
    ensures { result ≡ is_going start.verdict }
{
    matches!(start.verdict, Verdict::Hearing)
}

// Whether a journal may be gone on with: all of it was heard, or its end is torn.
pub fn is_good(verdict: Verdict) -> bool
    ensures { result ≡ is_good verdict }
{
    matches!(verdict, Verdict::Heard | Verdict::Torn)
}

// How many bytes the sums of the played notices have, to which the sums are cut.
pub fn sums_length(start: Start) -> usize
    ensures { result ≡ sums_length start }
{
    start.heard.saturating_mul(SUM)
}

// The sum of a number, 0 where it is not there.
fn sum_at(sums: &[u8], k: usize) -> u64
    ensures { result ≡ sum_at sums.now k }
{
    if k < sums.len() / SUM {
        return get(sums, k * SUM, SUM);
    }
    0
}

// Whether so many bytes and sums decide the next step, at a place of them and with a number of them.
fn ready(start: Start, size: usize, at: usize, over: bool, there: usize, k: usize) -> bool
    ensures { result ≡ is_ready_at size at over there k start }
{
    going(start) && far(size, at, over) && (start.sums <= start.heard || k < there)
}

// Whether the numbers are those of some journal, also when it goes on by so many bytes.
fn counted(start: Start, size: usize) -> bool
    ensures { result ≡ is_counted start size }
{
    start.heard <= start.place && start.behind <= start.place && start.place <= usize::MAX - size
}

// All that a window and the sums beside it decide.
fn hear_on(start: Start, row: &mut [u64], window: &[u8], sums: &[u8], over: bool) -> Start
    requires { is_counted start (length window.now) ≡ true }
    ensures { stage result row.new
        ≡ hears_in row_hears (view window.now sums.now start.place start.heard over) (stage start row.old) }
{
    let first = start.place;
    let known = start.heard;
    let there = sums.len() / SUM;
    let mut on = start;
    while ready(
        on,
        window.len(),
        on.place - first,
        over,
        there,
        on.heard - known,
    ) {
        let sum = sum_at(sums, on.heard - known);
        on = step(on, row, window, on.place - first, sum);
    }
    on
}

// Plays on: the window begins at the start's place in the journal, the sums at that of the next notice; `over` says that no byte of the
// journal follows.
pub fn hear(start: Start, row: &mut [u64], window: &[u8], sums: &[u8], over: bool) -> Start
    ensures { stage result row.new ≡ row_heard row.old start window.now sums.now over }
{
    if counted(start, window.len()) {
        return hear_on(start, row, window, sums, over);
    }
    start
}
