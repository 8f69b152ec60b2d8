// What a call answered: done, alone or with a number, or the refusal in words.

ghost use Rattle.text.specs.Pages.{Puts};
ghost use Rattle.console_answers.specs.Outcomes.{done_text, value_text};

use crate::entries;
use rules::DONE;
use text::page::Page;

// 0, or the refusal with the number that its words name.
pub fn put_done(page: &mut Page<'_>, answer: u8, named: u64)
    ensures { Puts page.old (done_text answer named) page.new }
{
    if answer == DONE {
        page.put(b"0");
    } else {
        words::put_refusal(page, answer, named);
    }
}

// 0 and a number, or the refusal.
pub fn put_value(page: &mut Page<'_>, answer: u8, value: u64, named: u64)
    ensures { Puts page.old (value_text answer value named) page.new }
{
    put_done(page, answer, named);
    if answer == DONE {
        entries::put_entry(page, value);
    }
}
