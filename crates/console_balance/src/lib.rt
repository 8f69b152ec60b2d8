// The changes that bring a pool to its sharing, as lines that can be entered: the planner's list over rates that a line gives
// by id. `put_balance` writes on a page; nothing is written past the end of its row.
#![tactic(auto)]

mod changes;
mod rates;

ghost use Rattle.std.specs.Prelude.{◌≡◌};
ghost use Rattle.planner.specs.Outcome.{room_of};
ghost use Rattle.text.specs.Pages.{Puts};
ghost use Rattle.console_balance.specs.Balance.{listed_text, balance_answer, balance_told, balance_reason, balance_text};

use console_commands::commands;
use console_limits::asked::put_asked;
use console_lines::lines::NUMBERS_MOST;
use rules::{DONE, OUTSIDE_LIMITS, TITLES_MAX};
use story::State;
use text::page::Page;

// What the planner lists, into rows that are lent.
fn put_listed(
    page: &mut Page<'_>,
    s: State,
    time: u64,
    rates: &[u32],
    ids: &mut [u64],
    times: &mut [u64],
    counts: &mut [u64],
)
    ensures { Puts page.old (listed_text s time rates.now (room_of ids.old times.old counts.old))
        page.new }
{
    let listed = planner::planner(s, time, rates, ids, times, counts);
    let answer = listed.answer;
    if answer == DONE {
        changes::put_changes(page, ids, times, counts, listed.many);
    } else {
        words::put_refusal(page, answer, 0);
    }
}

// What the line is answered by number, for what stands behind a refusal.
pub fn balance_verdict(s: State, numbers: [u64; NUMBERS_MOST], count: usize) -> u8
    ensures { result ≡ balance_answer s numbers count }
{
    let pairs = rates::pairs_of(count);
    if rates::ids_ok(&numbers, pairs) {
        let row = rates::rates_by(&numbers, pairs);
        let mut ids = [0u64; TITLES_MAX];
        let mut times = [0u64; TITLES_MAX];
        let mut counts = [0u64; TITLES_MAX];
        let listed = planner::planner(s, numbers[0], &row, &mut ids, &mut times, &mut counts);
        return listed.answer;
    }
    OUTSIDE_LIMITS
}

// The list, or the refusal.
fn put_told(page: &mut Page<'_>, s: State, numbers: [u64; NUMBERS_MOST], count: usize)
    ensures { Puts page.old (balance_told s numbers count) page.new }
{
    let pairs = rates::pairs_of(count);
    if rates::ids_ok(&numbers, pairs) {
        let row = rates::rates_by(&numbers, pairs);
        let mut ids = [0u64; TITLES_MAX];
        let mut times = [0u64; TITLES_MAX];
        let mut counts = [0u64; TITLES_MAX];
        put_listed(page, s, numbers[0], &row, &mut ids, &mut times, &mut counts);
    } else {
        words::put_refusal(page, OUTSIDE_LIMITS, 0);
    }
}

// What stands behind a refusal, where the last accepted event was at a time.
fn put_reason(
    page: &mut Page<'_>,
    answer: u8,
    last: u64,
    numbers: [u64; NUMBERS_MOST],
    count: usize,
)
    ensures { Puts page.old (balance_reason answer last numbers count) page.new }
{
    let pairs = rates::pairs_of(count);
    let end = 1 + 2 * pairs;
    put_asked(page, answer, commands::BALANCE, &numbers[..end], last);
}

// The numbers of the line: a time, and an id and a rate for each title that has another rate than the usual one.
pub fn put_balance(page: &mut Page<'_>, s: State, numbers: [u64; NUMBERS_MOST], count: usize)
    ensures { Puts page.old (balance_text s numbers count) page.new }
{
    let answer = balance_verdict(s, numbers, count);
    put_told(page, s, numbers, count);
    put_reason(page, answer, s.last, numbers, count);
}
