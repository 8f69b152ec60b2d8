// A list of changes, each a line that can be entered.

ghost use Rattle.std.specs.Prelude.{◌≤◌, length};
ghost use Rattle.text.specs.Pages.{Puts};
ghost use Rattle.console_balance.specs.Balance.{move_to, change_line, many_text, row_lines, rows_text};

use console_answers::entries::put_entry;
use text::page::Page;

// One change, on a line of its own.
fn put_change(page: &mut Page<'_>, id: u64, time: u64, count: u64)
    ensures { Puts page.old (change_line (move_to id time count)) page.new }
{
    page.put(b"\nchange");
    put_entry(page, id);
    put_entry(page, time);
    put_entry(page, count);
}

// The first line: how many changes there are.
fn put_many(page: &mut Page<'_>, many: u64)
    ensures { Puts page.old (many_text many) page.new }
{
    page.put(b"# changes: ");
    page.put_number(many);
}

// The changes that stand in the first places of three rows.
fn put_each(page: &mut Page<'_>, ids: &[u64], times: &[u64], counts: &[u64], many: u64)
    requires { (many ≤ length ids.now) × ((many ≤ length times.now) × (many ≤ length counts.now)) }
    ensures { Puts page.old (row_lines ids.now times.now counts.now many) page.new }
{
    for i in 0..many as usize {
        put_change(page, ids[i], times[i], counts[i]);
    }
}

// The list of them.
pub fn put_changes(page: &mut Page<'_>, ids: &[u64], times: &[u64], counts: &[u64], many: u64)
    requires { (many ≤ length ids.now) × ((many ≤ length times.now) × (many ≤ length counts.now)) }
    ensures { Puts page.old (rows_text ids.now times.now counts.now many) page.new }
{
    put_many(page, many);
    put_each(page, ids, times, counts, many);
}
