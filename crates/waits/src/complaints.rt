// What the program says on standard error beside its report: which notices of the log did not count, that the arrivals are too many,
// and that the log never opens the title. Lines are written at the start of a lent row; what has no room is left out.

ghost use Rattle.text.specs.Output.{Written};
ghost use Rattle.text.specs.Pages.{Puts};
ghost use Rattle.waits.specs.Complaints.{many_line, never_line, waits_complaints};

use files::lines::put_line;
use text::page::Page;
use unheard_io::put_unheard;
use waiting::ROW_MAX;
use waiting::reasons::never_opened;

fn put_many(page: &mut Page<'_>, arrivals: usize)
    ensures { Puts page.old (many_line arrivals) page.new }
{
    if arrivals > ROW_MAX {
        put_line(
            page,
            b"? ARRIVALS: more than ",
            ROW_MAX as u64,
            b" arrivals\n",
        );
    }
}

fn put_never(page: &mut Page<'_>, pool: u64, log: &[u8], title: u64)
    ensures { Puts page.old (never_line pool log.now title) page.new }
{
    if never_opened(pool, log, title) {
        put_line(page, b"? title ", title, b" was never opened\n");
    }
}

// Nothing where all notices count, the arrivals are not too many, and the title was opened.
fn put_lines(page: &mut Page<'_>, pool: u64, log: &[u8], title: u64, arrivals: usize)
    ensures { Puts page.old (waits_complaints pool log.now title arrivals) page.new }
{
    put_unheard(page, pool, log);
    put_many(page, arrivals);
    put_never(page, pool, log, title);
}

// The complaints, from the row's start on.
pub fn put_complaints(out: &mut [u8], pool: u64, log: &[u8], title: u64, arrivals: usize) -> usize
    ensures { Written out.old 0 (waits_complaints pool log.now title arrivals) out.new result }
{
    let mut page = Page::new(out);
    put_lines(&mut page, pool, log, title, arrivals);
    page.end()
}
