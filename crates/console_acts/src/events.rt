// The event that a line spells: one reading serves the words of events and `write`.

ghost use Rattle.std.specs.Prelude.{◌≡◌};
ghost use Rattle.console_acts.specs.Events.{word_of, act_by, event_in, written_event};

use console_commands::commands;
use console_lines::lines::Line;
use scheduler::{event_at, opening};
use scheme::{PADDED, STEADY};
use story::{Act, Event};

// How far the write of a word stands behind the word.
const WRITES: u8 = commands::WRITE_OPEN - commands::OPEN;

// The command of an event's word, written or not.
fn word_of(command: u8) -> u8
    ensures { result ≡ word_of command }
{
    if command < commands::WRITE_OPEN {
        return command;
    }
    command - WRITES
}

// What a word says with the numbers behind id and time.
#[tactic(auto, unfolding(crate::specs::Events::act_by))]
fn act_by(command: u8, w: u64, x: u64, y: u64, z: u64) -> Act
    ensures { result ≡ act_by command w x y z }
{
    match command {
        commands::OPEN => opening(PADDED, w, x, y, z),
        commands::CHANGE => Act::Changes { count: w },
        commands::HOLD => Act::Doors { held: true },
        commands::LIFT => Act::Doors { held: false },
        commands::SKIP => opening(STEADY, w, x, x, x),
        _ => Act::Closes,
    }
}

// The event of a line.
pub fn event_in(line: Line) -> Event
    ensures { result ≡ event_in line }
{
    let n = line.numbers;
    let word = word_of(line.command);
    event_at(n[0], n[1], act_by(word, n[2], n[3], n[4], n[5]))
}

// The event of a line that writes its notice.
pub fn written_event(line: Line) -> Event
    ensures { result ≡ written_event line }
{
    let n = line.numbers;
    let word = word_of(line.command);
    event_at(n[1], n[2], act_by(word, n[3], n[4], n[5], n[6]))
}
