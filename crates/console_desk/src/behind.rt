// What stands behind the refusal of a line that would change the agent: fresh, an event, a notice.

ghost use Rattle.std.specs.Prelude.{◌≤◌, length};
ghost use Rattle.text.specs.Pages.{Puts};
ghost use Rattle.console_lines.specs.Lines.{longest};
ghost use Rattle.console_desk.specs.Behind.{reading_reason, behind_in};

use agent::{Agent, event_of};
use console_acts::events::event_in;
use console_commands::commands;
use console_limits::asked::put_limits;
use console_lines::lines::Line;
use console_notices::hex;
use console_reasons::events::put_reason;
use notice::Reading;
use story::State;
use text::page::Page;

// Of bytes that may be a notice.
fn put_reading_reason(page: &mut Page<'_>, answer: u8, s: State, reading: Reading)
    ensures { Puts page.old (reading_reason answer s reading) page.new }
{
    match reading {
        Reading::Whole(n) => put_reason(page, answer, s, event_of(n)),
        Reading::Malformed => {}
    }
}

// Of a line that an agent answered, which is the agent before it.
pub fn put_behind(page: &mut Page<'_>, answer: u8, agent: Agent, line: Line, s: &[u8])
    requires { length s.now ≤ longest }
    ensures { Puts page.old (behind_in answer agent line s.now) page.new }
{
    let command = line.command;
    let n = line.numbers;
    let state = agent.state;
    if command == commands::FRESH {
        let numbers = [n[0]];
        put_limits(page, answer, commands::FRESH, &numbers);
    } else if command == commands::NOTICE {
        put_reading_reason(page, answer, state, hex::reading(s, n[0], n[1]));
    } else {
        put_reason(page, answer, state, event_in(line));
    }
}
