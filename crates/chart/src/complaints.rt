// What the program says on standard error beside the picture of a box. Lines are written on a page; what has no room is left out.

ghost use Rattle.std.specs.Prelude.{◌≡◌};
ghost use Rattle.text.specs.Pages.{Puts};
ghost use Rattle.chart.specs.Complaints.{next_moment, next_words, no_admission_line, never_opened_line, beginning_line};

use clocks::put_clock;
use log_boxes::{Beginning, is_now};
use rules::{ASKED_MAX, DONE, NOT_THERE};
use text::page::Page;

// No wait is longer.
const WAIT_MAX: u64 = 4_398_046_511_104;

fn next_moment(found: Beginning) -> u64
    ensures { result ≡ next_moment found }
{
    found.from.min(ASKED_MAX) + found.wait.min(WAIT_MAX)
}

fn put_next(page: &mut Page<'_>, moment: u64)
    ensures { Puts page.old (next_words moment) page.new }
{
    page.put(b"the next is ");
    page.put_number(moment);
    page.put(b" (");
    put_clock(page, moment);
    page.put(b")\n");
}

fn put_no_admission(page: &mut Page<'_>, title: u64, found: Beginning)
    ensures { Puts page.old (no_admission_line title found) page.new }
{
    page.put(b"? TIME is no admission of title ");
    page.put_number(title);
    page.put(b": ");
    if found.follows {
        put_next(page, next_moment(found));
    } else {
        page.put(b"none follows\n");
    }
}

fn put_never_opened(page: &mut Page<'_>, title: u64)
    ensures { Puts page.old (never_opened_line title) page.new }
{
    page.put(b"? title ");
    page.put_number(title);
    page.put(b" was never opened\n");
}

// Nothing where the box begins at the moment, or for a refusal that tells itself.
pub fn put_beginning(page: &mut Page<'_>, title: u64, time: u64, found: Beginning)
    ensures { Puts page.old (beginning_line title time found) page.new }
{
    let answer = found.answer;
    if answer == DONE {
        if !is_now(found, time) {
            put_no_admission(page, title, found);
        }
    } else if answer == NOT_THERE {
        put_never_opened(page, title);
    }
}
