// The event that a line asks about: a change, a close, a hold or a lift, at no earlier time than its own.

ghost use Rattle.std.specs.Prelude.{◌≡◌};
ghost use Rattle.console_desk.specs.Asks.{when_act, when_event};

use console_commands::commands;
use console_lines::lines::Line;
use story::{Act, Event};

// What it does to its title: a change to a count where it names one.
#[tactic(auto, unfolding(crate::specs::Asks::when_act))]
fn act_asked(command: u8, count: u64) -> Act
    ensures { result ≡ when_act command count }
{
    match command {
        commands::WHEN_CLOSE => Act::Closes,
        commands::WHEN_HOLD => Act::Doors { held: true },
        commands::WHEN_LIFT => Act::Doors { held: false },
        _ => Act::Changes { count },
    }
}

pub fn event_asked(line: Line) -> Event
    ensures { result ≡ when_event line }
{
    let n = line.numbers;
    let act = act_asked(line.command, n[2]);
    Event {
        title: n[0],
        time: n[1],
        act,
    }
}
