// Rows of numbers side by side: at each place the numbers of all of them, each behind a space.

ghost use Rattle.text.specs.Pages.{Puts};
ghost use Rattle.console_pools.specs.Beside.{entry_at, beside};

use console_answers::entries::put_entry;
use text::page::Page;

// The number of a row at a place, where it has one.
#[tactic(auto, unfolding(crate::specs::Beside::entry_at, text::specs::Output::puts))]
fn put_at(page: &mut Page<'_>, row: &[u64], i: usize)
    ensures { Puts page.old (entry_at row.now i) page.new }
{
    match row.get(i) {
        Some(n) => put_entry(page, *n),
        None => {}
    }
}

// The first n places of four rows; one that ends before them is left out from there on.
pub fn put_beside(page: &mut Page<'_>, a: &[u64], b: &[u64], c: &[u64], d: &[u64], n: usize)
    ensures { Puts page.old
        (beside a.now b.now c.now d.now n) page.new }
{
    for i in 0..n {
        put_at(page, a, i);
        put_at(page, b, i);
        put_at(page, c, i);
        put_at(page, d, i);
    }
}
