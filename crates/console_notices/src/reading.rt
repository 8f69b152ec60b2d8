// A notice that was read, in the words of the line that writes it.

ghost use Rattle.std.specs.Prelude.{length};
ghost use Rattle.text.specs.Pages.{Puts};
ghost use Rattle.console_answers.specs.Entries.{numbers_text};
ghost use Rattle.console_notices.specs.Reading.{kind_text, notice_text, reading_text};
ghost use Rattle.console_notices.specs.inner.Kinds.{kind_word, kind_numbers};

use console_answers::entries;
use notice::{Kind, Notice, Reading, kind_number};
use rules::MALFORMED;
use text::page::Page;
use words::lines::put_line;

// The word of a kind behind a space, each the line of its number, of which 0 is none.
fn put_word(page: &mut Page<'_>, kind: Kind)
    ensures { Puts page.old (kind_word kind) page.new }
{
    let words = b"\n\
        \x20open\n\
        \x20change\n\
        \x20close\n\
        \x20hold\n\
        \x20lift\n\
        \x20skip\n";
    put_line(page, words, kind_number(kind));
}

// The numbers that a kind has of its own.
fn put_own(page: &mut Page<'_>, kind: Kind)
    ensures { Puts page.old (numbers_text (kind_numbers kind) (length (kind_numbers kind))) page.new }
{
    match kind {
        Kind::Open {
            length,
            floor,
            cap,
            count,
        } => {
            let row = [length as u64, floor as u64, cap as u64, count as u64];
            entries::put_numbers(page, &row);
        }
        Kind::Change { count } => entries::put_entry(page, count as u64),
        Kind::Skip { length, count } => {
            entries::put_entry(page, length as u64);
            entries::put_entry(page, count as u64);
        }
        Kind::Close | Kind::Hold | Kind::Lift => {}
    }
}

// The kind with the numbers of its notice.
fn put_kind(page: &mut Page<'_>, id: u64, time: u64, kind: Kind)
    ensures { Puts page.old (kind_text id time kind) page.new }
{
    put_word(page, kind);
    entries::put_entry(page, id);
    entries::put_entry(page, time);
    put_own(page, kind);
}

fn put_notice(page: &mut Page<'_>, n: Notice)
    ensures { Puts page.old (notice_text n) page.new }
{
    let kind = n.kind;
    page.put(b"0");
    entries::put_entry(page, n.sequence as u64);
    put_kind(page, n.title as u64, n.time, kind);
}

// What bytes read as.
pub fn put_reading(page: &mut Page<'_>, reading: Reading)
    ensures { Puts page.old (reading_text reading) page.new }
{
    match reading {
        Reading::Whole(n) => put_notice(page, n),
        Reading::Malformed => words::put_refusal(page, MALFORMED, 0),
    }
}
