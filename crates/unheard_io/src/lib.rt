// What programs over a log say on standard error where notices of it did not count. No public function has a `requires`.
#![tactic(auto)]

ghost use Rattle.text.specs.Pages.{Puts};
ghost use Rattle.unheard_io.specs.Line.{missed_line, unheard_line};

use files::lines::put_line;
use text::page::Page;
use unheard::{MissedTally, unheard_in};
use words::put_meaning;

// How many of how many did not count, and of the first its number in the log and its answer.
fn put_missed(page: &mut Page<'_>, tally: MissedTally)
    ensures { Puts page.old (missed_line tally) page.new }
{
    put_line(page, b"? LOG: ", tally.missed, b" of ");
    put_line(
        page,
        b"",
        tally.notices,
        b" notices did not count, the first is number ",
    );
    put_line(page, b"", tally.first, b": ");
    put_meaning(page, tally.said);
    page.put(b"\n");
}

// The line of a log that is played into a fresh agent of a pool. Nothing where all its notices count, and nothing where the log or
// the pool is refused.
pub fn put_unheard(page: &mut Page<'_>, pool: u64, log: &[u8])
    ensures { Puts page.old (unheard_line pool log.now) page.new }
{
    let tally = unheard_in(pool, log).tally;
    if tally.missed > 0 {
        put_missed(page, tally);
    }
}
