// The cells of a plan, each behind a space.

ghost use Rattle.std.specs.Prelude.{◌≤◌, length};
ghost use Rattle.text.specs.Pages.{Puts};
ghost use Rattle.console_boxes.specs.Plan.{cell_entry, cells_text};

use console_answers::entries::put_entry;
use plans::NEVER;
use text::page::Page;

// A cell of a plan: its number, or `-` where it is never taken.
fn put_cell(page: &mut Page<'_>, n: u16)
    ensures { Puts page.old (cell_entry n) page.new }
{
    if n == NEVER {
        page.put(b" -");
    } else {
        put_entry(page, n as u64);
    }
}

// The first n cells of a plan.
pub fn put_cells(page: &mut Page<'_>, row: &[u16], n: usize)
    requires { n ≤ length row.now }
    ensures { Puts page.old (cells_text row.now n) page.new }
{
    for cell in &row[..n] {
        put_cell(page, *cell);
    }
}
