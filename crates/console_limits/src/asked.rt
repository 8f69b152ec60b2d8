// What stands behind the refusal of a question.

ghost use Rattle.text.specs.Pages.{Puts};
ghost use Rattle.console_limits.specs.Asked.{limit_reason, last_text, asked_reason};

use crate::outside::put_out;
use rules::{OUTSIDE_LIMITS, TOO_EARLY};
use text::page::Page;

// Of a question that is not asked of a state, by its command and its numbers.
pub fn put_limits(page: &mut Page<'_>, answer: u8, command: u8, numbers: &[u64])
    ensures { Puts page.old (limit_reason answer command numbers.now)
        page.new }
{
    if answer == OUTSIDE_LIMITS {
        put_out(page, command, numbers);
    }
}

// When the last accepted event was.
pub fn put_last(page: &mut Page<'_>, time: u64)
    ensures { Puts page.old (last_text time) page.new }
{
    page.put(b", the last is at ");
    page.put_number(time);
}

// Of a question of a state, whose last accepted event was at a time.
pub fn put_asked(page: &mut Page<'_>, answer: u8, command: u8, numbers: &[u64], last: u64)
    ensures { Puts page.old (asked_reason answer command numbers.now last)
        page.new }
{
    if answer == TOO_EARLY {
        put_last(page, last);
    } else {
        put_limits(page, answer, command, numbers);
    }
}
