// What the air carried, judged and told in a lent row.

ghost use Rattle.std.specs.Prelude.{◌≡◌, length};
ghost use Rattle.text.specs.Output.{Written};
ghost use Rattle.text.specs.Pages.{Puts};
ghost use Rattle.judging.specs.Record.{ticks_max};
ghost use Rattle.air.specs.Lines.{air_text};

use crate::lines::put_report;
use airing::{admissions, air};
use judging::{TICKS_MAX, blank_marks};
use text::page::Page;

// A result for each tick that a record may have. The `ensures` gives the length, which lending the array as a slice
// needs.
fn blank_row() -> [u16; TICKS_MAX]
    ensures { length result ≡ ticks_max }
{
    [0; TICKS_MAX]
}

// What became of each admission that a record judges, a line for each, and three lines in all; or the refusal's one.
fn put_judgement(page: &mut Page<'_>, pool: u64, log: &[u8], title: u64, record: &[u16])
    ensures { Puts page.old (air_text pool log.now title «record».now) page.new }
{
    let mut row = blank_row();
    let mut marks = blank_marks();
    let judgement = air(pool, log, title, record, &mut row);
    admissions(pool, log, title, &mut marks);
    put_report(page, judgement, &marks, &row);
}

// So it is written at the start of a lent row. What has no room is left out.
pub fn put_air(out: &mut [u8], pool: u64, log: &[u8], title: u64, record: &[u16]) -> usize
    ensures { Written out.old 0 (air_text pool log.now title «record».now) out.new result }
{
    let mut page = Page::new(out);
    put_judgement(&mut page, pool, log, title, record);
    page.end()
}
