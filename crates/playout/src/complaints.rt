// What the program says on standard error beside its lines: which notices of the log did not count, and of a refusal what its number
// alone does not tell. Lines are written on a page; what has no room is left out.

ghost use Rattle.text.specs.Output.{Written};
ghost use Rattle.text.specs.Pages.{Puts};
ghost use Rattle.playout.specs.Complaints.{unopened_line, playout_complaints};

use files::lines::put_line;
use playouts::answer_of;
use rules::NOT_THERE;
use text::page::Page;
use unheard_io::put_unheard;

// A title that is not there was never opened in the log.
fn put_never(page: &mut Page<'_>, answer: u8, title: u64)
    ensures { Puts page.old (unopened_line answer title) page.new }
{
    if answer == NOT_THERE {
        put_line(page, b"? title ", title, b" was never opened\n");
    }
}

// Nothing where all notices count and the title was opened.
fn put_each(page: &mut Page<'_>, pool: u64, log: &[u8], title: u64, from: u64, ticks: u64)
    ensures { Puts page.old (playout_complaints pool log.now title from ticks) page.new }
{
    put_unheard(page, pool, log);
    let answer = answer_of(pool, log, title, from, ticks);
    put_never(page, answer, title);
}

// They are written at the start of a lent row.
pub fn put_complaints(
    out: &mut [u8],
    pool: u64,
    log: &[u8],
    title: u64,
    from: u64,
    ticks: u64,
) -> usize
    ensures { Written out.old 0 (playout_complaints pool log.now title from ticks) out.new result }
{
    let mut page = Page::new(out);
    put_each(&mut page, pool, log, title, from, ticks);
    page.end()
}
