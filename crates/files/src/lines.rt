// A line of a report, on a page: a name, a number, and what ends the line. What has no room is left out.

ghost use Rattle.std.specs.Prelude.{◌≡◌, ◌-◌};
ghost use Rattle.text.specs.Pages.{Puts};
ghost use Rattle.files.specs.Lines.{line_of};

use text::page::Page;

pub fn put_line(page: &mut Page<'_>, name: &[u8], n: u64, end: &[u8])
    ensures { Puts page.old (line_of name.now n end.now) page.new }
{
    page.put(name);
    page.put_number(n);
    page.put(end);
}

// How many more a is than b, 0 where it is less.
pub fn difference(a: u64, b: u64) -> u64
    ensures { result ≡ a - b }
{
    a.saturating_sub(b)
}
