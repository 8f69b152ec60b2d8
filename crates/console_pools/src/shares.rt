// The sharing of lanes.

ghost use Rattle.std.specs.Prelude.{◌≡◌, ◌≤◌, length};
ghost use Rattle.console_answers.specs.Entries.{numbers_text};
ghost use Rattle.console_commands.specs.Commands.{titles_most};
ghost use Rattle.text.specs.Pages.{Puts};
ghost use Rattle.console_pools.specs.Shares.{share_text, titles_in, share_in};

use crate::columns::column;
use console_answers::entries::put_entry;
use console_answers::outcomes;
use console_commands::commands;
use console_commands::commands::{TITLE_NUMBERS, TITLES_MOST};
use console_limits::asked::put_limits;
use console_lines::lines::NUMBERS_MOST;
use rules::DONE;
use text::page::Page;

// The counts of a sharing.
pub fn put_shares(page: &mut Page<'_>, row: &[u32])
    ensures { Puts page.old (numbers_text row.now (length row.now))
        page.new }
{
    for n in row {
        put_entry(page, u64::from(*n));
    }
}

// Over rows that are lent, with the line's numbers besides.
fn put_rows(
    page: &mut Page<'_>,
    asked: &[u64],
    pool: u64,
    rates: &[u32],
    lengths: &[u32],
    floors: &[u32],
    caps: &[u32],
    counts: &mut [u32],
)
    ensures { Puts page.old
        (share_text asked.now pool rates.now lengths.now floors.now caps.now
        counts.old) page.new }
{
    let answer = sharing::share(pool, rates, lengths, floors, caps, counts);
    outcomes::put_done(page, answer, 0);
    if answer == DONE {
        put_shares(page, counts);
    } else {
        put_limits(page, answer, commands::SHARE, asked);
    }
}

// How many titles follow the pool, up to the most.
#[tactic(auto, unfolding(crate::specs::Shares::titles_in))]
fn titles_of(count: usize) -> usize
    ensures { (result ≡ titles_in count) × (result ≤ titles_most) }
{
    (count.saturating_sub(1) / TITLE_NUMBERS).min(TITLES_MOST)
}

// The numbers of the line: a pool, and four for each title up to its count.
pub fn put_share(page: &mut Page<'_>, row: [u64; NUMBERS_MOST], count: usize)
    ensures { Puts page.old (share_in row count) page.new }
{
    let n = titles_of(count);
    let rates = column(&row, 1, TITLE_NUMBERS);
    let lengths = column(&row, 2, TITLE_NUMBERS);
    let floors = column(&row, 3, TITLE_NUMBERS);
    let caps = column(&row, 4, TITLE_NUMBERS);
    let mut counts = [0u32; TITLES_MOST];
    let pool = row[0];
    let end = 1 + TITLE_NUMBERS * n;
    put_rows(
        page,
        &row[..end],
        pool,
        &rates[..n],
        &lengths[..n],
        &floors[..n],
        &caps[..n],
        &mut counts[..n],
    );
}
