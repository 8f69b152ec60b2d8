// What stands behind the refusal of a lane question.

ghost use Rattle.std.specs.Prelude.{◌≡◌};
ghost use Rattle.text.specs.Pages.{Puts};
ghost use Rattle.console_reasons.specs.Lanes.{missing_text, last_in, lane_reason};

use console_commands::commands;
use console_limits::asked::put_asked;
use rules::{ID_MAX, NOT_THERE};
use story::State;
use text::page::Page;

// What is missing, by the presence of the title.
pub fn put_missing(page: &mut Page<'_>, presence: u8)
    ensures { Puts page.old (missing_text presence) page.new }
{
    if presence == outlook::NEVER_OPENED {
        page.put(b", the title was never opened");
    } else if presence == outlook::GONE {
        page.put(b", the title is gone");
    } else {
        page.put(b", the lane is not held");
    }
}

// The time of a title's last event; an id that is out of range has none.
pub fn last_in(s: State, id: u64) -> u64
    ensures { result ≡ last_in s id }
{
    if id <= ID_MAX {
        let t = s.titles[id as usize];
        return t.last;
    }
    0
}

pub fn put_lane_reason(page: &mut Page<'_>, answer: u8, s: State, id: u64, lane: u64, time: u64)
    ensures { Puts page.old (lane_reason answer s id lane time) page.new }
{
    if answer == NOT_THERE {
        put_missing(page, outlook::presence(s, id, time));
    } else {
        let numbers = [id, lane, time];
        put_asked(page, answer, commands::LANE, &numbers, last_in(s, id));
    }
}
