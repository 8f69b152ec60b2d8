// Which number of a line is out of its limits, in words.

ghost use Rattle.std.specs.Prelude.{◌<◌, ◌≡◌, length, MatchOption};
ghost use Rattle.text.specs.Pages.{Puts};
ghost use Rattle.console_limits.specs.Outside.{first_out, bounds_text, out_text};

use crate::quantities::{bounds_of, is_out, put_name, quantity_at};
use text::page::Page;

// The first place whose number is out of its limits.
fn first_out(command: u8, numbers: &[u64]) -> Option<usize>
    ensures { MatchOption result (first_out command numbers.now ≡ length numbers.now)
        (λ i. (i < length numbers.now) × (i ≡ first_out command numbers.now)) }
{
    numbers
        .iter()
        .enumerate()
        .position(|(i, n)| is_out(quantity_at(command, i), *n))
}

// The limits of a quantity, by its name.
fn put_bounds(page: &mut Page<'_>, quantity: u8)
    ensures { Puts page.old (bounds_text quantity) page.new }
{
    let limits = bounds_of(quantity);
    let low = limits.low;
    let high = limits.high;
    page.put(b", ");
    put_name(page, quantity);
    page.put(b" is ");
    page.put_number(low);
    page.put(b" to ");
    page.put_number(high);
}

// The first number that is out of its limits, with name and limits, or that the state is.
pub fn put_out(page: &mut Page<'_>, command: u8, numbers: &[u64])
    ensures { Puts page.old (out_text command numbers.now) page.new }
{
    match first_out(command, numbers) {
        Some(first) => put_bounds(page, quantity_at(command, first)),
        None => page.put(b", the state is out of its limits"),
    }
}
