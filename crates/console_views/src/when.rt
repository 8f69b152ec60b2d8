// When an event is accepted, if nobody else acts.

ghost use Rattle.text.specs.Pages.{Puts};
ghost use Rattle.console_views.specs.When.{when_reason, when_text};

use console_acts::named::by_event;
use console_answers::outcomes;
use console_reasons::events;
use console_reasons::lanes::put_missing;
use rules::NOT_THERE;
use story::{Event, State};
use text::page::Page;

// What stands behind a refusal.
fn put_reason(page: &mut Page<'_>, answer: u8, s: State, e: Event)
    ensures { Puts page.old (when_reason answer s e) page.new }
{
    if answer == NOT_THERE {
        let time = e.time.max(s.last);
        put_missing(page, outlook::presence(s, e.title, time));
    } else {
        events::put_reason(page, answer, s, e);
    }
}

// The earliest time from its own on at which an event is accepted, or the refusal that no time mends.
pub fn put_when(page: &mut Page<'_>, s: State, e: Event)
    ensures { Puts page.old (when_text s e) page.new }
{
    let moment = outlook::when(s, e);
    let answer = moment.answer;
    let named = by_event(answer, s, e);
    outcomes::put_value(page, answer, moment.time, named);
    put_reason(page, answer, s, e);
}
