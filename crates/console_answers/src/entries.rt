// Rows of numbers, each behind a space.

ghost use Rattle.std.specs.Prelude.{length};
ghost use Rattle.text.specs.Pages.{Puts};
ghost use Rattle.console_answers.specs.Entries.{entry, numbers_text};

use text::page::Page;

// A number.
pub fn put_entry(page: &mut Page<'_>, n: u64)
    ensures { Puts page.old (entry n) page.new }
{
    page.put(b" ");
    page.put_number(n);
}

pub fn put_numbers(page: &mut Page<'_>, row: &[u64])
    ensures { Puts page.old (numbers_text row.now (length row.now))
        page.new }
{
    for n in row {
        put_entry(page, *n);
    }
}
