// The status of titles.

ghost use Rattle.std.specs.Prelude.{◌≡◌, ◌-◌, ◌<◌, ◌≤◌, min, length, get_or, drop};
ghost use Rattle.console_commands.specs.Commands.{ids_most};
ghost use Rattle.text.specs.Pages.{Puts};
ghost use Rattle.console_pools.specs.Titles.{status_text, ids_in};

use crate::beside::put_beside;
use console_answers::outcomes;
use console_commands::commands;
use console_commands::commands::IDS_MOST;
use console_limits::asked::put_asked;
use console_lines::lines::NUMBERS_MOST;
use rules::DONE;
use story::State;
use text::page::Page;

// Over the line's time and ids, and a row for each number that is told of an id.
fn put_rows(
    page: &mut Page<'_>,
    s: State,
    asked: &[u64],
    counts: &mut [u64],
    held: &mut [u64],
    marks: &mut [u64],
)
    requires { (0 < length asked.now) × ((length counts.old ≡ length (drop 1 asked.now))
        × ((length held.old ≡ length (drop 1 asked.now)) × (length marks.old ≡ length (drop 1 asked.now)))) }
    ensures { Puts page.old
        (status_text s (get_or asked.now 0 0) (drop 1 asked.now)) page.new }
{
    let time = asked[0];
    let answer = status::status(s, time, &asked[1..], counts, held, marks);
    outcomes::put_done(page, answer, 0);
    if answer == DONE {
        let n = asked.len() - 1;
        put_beside(page, &asked[1..], counts, held, marks, n);
    } else {
        put_asked(page, answer, commands::STATUS, asked, s.last);
    }
}

// How many ids follow the time, up to the most.
fn ids_of(count: usize) -> usize
    ensures { (result ≡ min (count - 1) ids_most) × (result ≤ ids_most) }
{
    count.saturating_sub(1).min(IDS_MOST)
}

// The numbers of the line: a time, and ids up to its count.
pub fn put_status(page: &mut Page<'_>, s: State, numbers: [u64; NUMBERS_MOST], count: usize)
    ensures { Puts page.old (status_text s (get_or numbers 0 0) (ids_in numbers count))
        page.new }
{
    let n = ids_of(count);
    let mut counts = [0u64; IDS_MOST];
    let mut held = [0u64; IDS_MOST];
    let mut marks = [0u64; IDS_MOST];
    let end = n + 1;
    put_rows(
        page,
        s,
        &numbers[..end],
        &mut counts[..n],
        &mut held[..n],
        &mut marks[..n],
    );
}
