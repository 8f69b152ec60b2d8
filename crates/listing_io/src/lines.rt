// The lines of the listing, written at the start of a lent row. What has no room is left out.

ghost use Rattle.std.specs.Prelude.{◌≡◌};
ghost use Rattle.text.specs.Output.{page, puts};
ghost use Rattle.text.specs.Pages.{Puts};
ghost use Rattle.listing_io.specs.Lines.{number_then, listing_line, last_line};

use rules::MALFORMED;
use text::page::Page;

// Room for any line: five numbers of 20 digits at most, and the byte that ends each.
pub const LINE_ROOM: usize = 105;

const SPACE: u8 = 32;

const NEWLINE: u8 = 10;

// A number, and the byte that ends it.
fn put_ended(page: &mut Page<'_>, n: u64, end: u8)
    ensures { Puts page.old (number_then n end) page.new }
{
    page.put_number(n);
    page.put_byte(end);
}

fn put_fields(page: &mut Page<'_>, sequence: u32, kind: u8, title: u8, answer: u8, held: u64)
    ensures { Puts page.old (listing_line sequence kind title answer held) page.new }
{
    put_ended(page, sequence as u64, SPACE);
    put_ended(page, kind as u64, SPACE);
    put_ended(page, title as u64, SPACE);
    put_ended(page, answer as u64, SPACE);
    put_ended(page, held, NEWLINE);
}

// The line of a notice: sequence, kind, title, answer and lanes held.
pub fn put_line(out: &mut [u8], sequence: u32, kind: u8, title: u8, answer: u8, held: u64) -> usize
    ensures { page out.new result ≡ puts (page out.old 0) (listing_line sequence kind title answer held) }
{
    let mut page = Page::new(out);
    put_fields(&mut page, sequence, kind, title, answer, held);
    page.end()
}

fn put_cut(page: &mut Page<'_>, held: u64)
    ensures { Puts page.old (last_line held) page.new }
{
    page.put(b"- - - ");
    put_ended(page, MALFORMED as u64, SPACE);
    put_ended(page, held, NEWLINE);
}

// The line that ends a listing: bytes that are no notice.
pub fn put_last(out: &mut [u8], held: u64) -> usize
    ensures { page out.new result ≡ puts (page out.old 0) (last_line held) }
{
    let mut page = Page::new(out);
    put_cut(&mut page, held);
    page.end()
}
