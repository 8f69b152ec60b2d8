// What the program says on standard error beside its report: which notices of the log did not count, and of a refusal what its number
// alone does not tell. Lines are written on a page; what has no room is left out.

ghost use Rattle.text.specs.Output.{Written};
ghost use Rattle.text.specs.Pages.{Puts};
ghost use Rattle.air.specs.Complaints.{long_line, skip_line, stray_line, stray_text, air_complaints};

use crate::places::line_of;
use airing::reasons::{first_stray, is_skip_forward};
use files::lines::put_line;
use judging::TICKS_MAX;
use rules::LANE_PLACES;
use text::page::Page;
use unheard_io::put_unheard;

// A record that is too long.
fn put_long(page: &mut Page<'_>, record: &[u16])
    ensures { Puts page.old (long_line «record».now) page.new }
{
    if record.len() / LANE_PLACES > TICKS_MAX {
        put_line(page, b"? RECORD: more than ", TICKS_MAX as u64, b" ticks\n");
    }
}

// A title that is none of floor and cap.
fn put_skip(page: &mut Page<'_>, pool: u64, log: &[u8], title: u64)
    ensures { Puts page.old (skip_line pool log.now title) page.new }
{
    if is_skip_forward(pool, log, title) {
        put_line(
            page,
            b"? title ",
            title,
            b" was last opened as a skip-forward title\n",
        );
    }
}

// The line of the text and the lane of a number that the title can't have.
fn put_place(page: &mut Page<'_>, text: &[u8], k: usize)
    ensures { Puts page.old (stray_line text.now k) page.new }
{
    let line = line_of(text, k as u64);
    put_line(page, b"? RECORD: line ", line, b", lane ");
    put_line(
        page,
        b"",
        (k % LANE_PLACES) as u64,
        b": the title has no such cell\n",
    );
}

// The first such number of a record of so many, if there is one.
fn put_stray(page: &mut Page<'_>, text: &[u8], k: usize, size: usize)
    ensures { Puts page.old (stray_text text.now k size) page.new }
{
    if k < size {
        put_place(page, text, k);
    }
}

// Nothing where all notices count and the record is judged.
fn put_each(page: &mut Page<'_>, pool: u64, log: &[u8], title: u64, record: &[u16], text: &[u8])
    ensures { Puts page.old (air_complaints pool log.now title «record».now text.now) page.new }
{
    put_unheard(page, pool, log);
    put_long(page, record);
    put_skip(page, pool, log, title);
    let stray = first_stray(pool, log, title, record);
    put_stray(page, text, stray, record.len());
}

// They are written at the start of a lent row.
pub fn put_complaints(
    out: &mut [u8],
    pool: u64,
    log: &[u8],
    title: u64,
    record: &[u16],
    text: &[u8],
) -> usize
    ensures { Written out.old 0
        (air_complaints pool log.now title «record».now text.now) out.new result }
{
    let mut page = Page::new(out);
    put_each(&mut page, pool, log, title, record, text);
    page.end()
}
