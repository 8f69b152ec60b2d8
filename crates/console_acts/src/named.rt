// The number that the words of a refusal name: the sequence that is expected, the floor or the cap that a count missed, or
// the moment from which on a title may change again.

ghost use Rattle.std.specs.Prelude.{◌≡◌, ◌≤◌, length};
ghost use Rattle.console_lines.specs.Lines.{longest};
ghost use Rattle.console_acts.specs.Named.{missed_at, missed_by, missed_of, named_in};

use crate::events::event_in;
use agent::{Agent, event_of};
use console_commands::commands;
use console_lines::lines::Line;
use console_notices::hex;
use notice::Reading;
use questions::settled;
use rules::{ID_MAX, OUT_OF_TURN, TOO_SOON};
use story::{Act, Event, State};

// Of the title of an id; an id that is out of range has none.
fn by_title(answer: u8, s: State, id: u64) -> u64
    ensures { result ≡ missed_at answer s id }
{
    if answer == TOO_SOON {
        return settled(s, id);
    }
    if id <= ID_MAX {
        let t = s.titles[id as usize];
        return words::missed(answer, t.film.floor, t.film.cap);
    }
    0
}

// Of an event: an opening has its own floor and cap, any other those of its title.
pub fn by_event(answer: u8, s: State, e: Event) -> u64
    ensures { result ≡ missed_by answer s e }
{
    let id = e.title;
    let act = e.act;
    match act {
        Act::Opens { film, count: _ } => words::missed(answer, film.floor, film.cap),
        Act::Changes { count: _ } => by_title(answer, s, id),
        Act::Closes => by_title(answer, s, id),
        Act::Doors { held: _ } => by_title(answer, s, id),
    }
}

// Of bytes that may be a notice.
fn by_reading(answer: u8, s: State, reading: Reading) -> u64
    ensures { result ≡ missed_of answer s reading }
{
    match reading {
        Reading::Whole(n) => by_event(answer, s, event_of(n)),
        Reading::Malformed => 0,
    }
}

// Of a line that an agent answered.
pub fn by_line(answer: u8, agent: Agent, line: Line, s: &[u8]) -> u64
    requires { length s.now ≤ longest }
    ensures { result ≡ named_in answer agent line s.now }
{
    if answer == OUT_OF_TURN {
        return agent.sequence as u64 + 1;
    }
    let command = line.command;
    let n = line.numbers;
    let state = agent.state;
    if command == commands::NOTICE {
        return by_reading(answer, state, hex::reading(s, n[0], n[1]));
    }
    by_event(answer, state, event_in(line))
}
