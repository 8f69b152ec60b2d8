// The console's commands by number, the words that name them, and how many numbers each takes, of which size and which are
// times.

ghost use Rattle.std.specs.Prelude.{◌≡◌, ◌≤◌};
ghost use Rattle.rules.specs.Refusals.{pick};
ghost use Rattle.text.specs.Texts.{same};
ghost use Rattle.console_commands.specs.Commands.{
  command_of,
  name_of,
  verb_of,
  most_of,
  limit_of,
  enough as suffices,
  crowded,
  oversized,
  takes_hex,
  takes_kind,
  takes_act,
  is_timed,
  asks_plan,
  words_most,
};
ghost use Rattle.console_commands.specs.Letters.{lowered};

use crate::letters;
use rules::{PLAN_PLACES, TITLES_MAX};
use text::bytes;
use text::bytes::Sort;
use text::numbers::{BYTE_MOST, FOUR_BYTES_MOST, TOP};

// kept: numbers and no enum, since `most`, `limit`, `crowded_fault` and the calls above answer for every u8 (docs/PROMISES.md).
// A line that asks nothing.
pub const NONE: u8 = 0;

pub const FRESH: u8 = 1;

pub const OPEN: u8 = 2;

pub const CHANGE: u8 = 3;

pub const CLOSE: u8 = 4;

pub const HOLD: u8 = 5;

pub const LIFT: u8 = 6;

// Opens a skip-forward title; the last of the events.
pub const SKIP: u8 = 7;

pub const LANE: u8 = 8;

pub const STATUS: u8 = 9;

pub const PLAN: u8 = 10;

pub const SHARE: u8 = 11;

pub const READ: u8 = 12;

pub const NOTICE: u8 = 13;

// Lane and plan, asked of the small box.
pub const ROM_LANE: u8 = 14;

pub const ROM_PLAN: u8 = 15;

pub const PLANNER: u8 = 16;

// The plan of a skip-forward title's box.
pub const SKIP_PLAN: u8 = 17;

// A write whose kind has not been read yet; the kind's own number is added to it.
pub const WRITE: u8 = 18;

pub const HELP: u8 = 19;

pub const WRITE_OPEN: u8 = 20;

pub const WRITE_CHANGE: u8 = 21;

pub const WRITE_CLOSE: u8 = 22;

pub const WRITE_HOLD: u8 = 23;

pub const WRITE_LIFT: u8 = 24;

pub const WRITE_SKIP: u8 = 25;

// Asks when a change to a count is accepted; the last word may be another event instead, which makes it one of the last three.
pub const WHEN: u8 = 26;

// The planner with rates by id.
pub const BALANCE: u8 = 27;

pub const TITLES: u8 = 28;

pub const LANES: u8 = 29;

pub const QUIT: u8 = 30;

// On a terminal, each event shows its title's lanes from here on, or no longer does.
pub const DRAW: u8 = 31;

pub const WHEN_CLOSE: u8 = 32;

pub const WHEN_HOLD: u8 = 33;

pub const WHEN_LIFT: u8 = 34;

// What can be wrong with a line.
// kept: numbers, since `fault_words` of `console_answers` has a line for each and an empty one for every other u8 (specs/Faults).
pub const NO_FAULT: u8 = 0;

pub const TOO_LONG: u8 = 1;

pub const UNKNOWN_WORD: u8 = 2;

pub const TOO_FEW: u8 = 3;

pub const TOO_MANY: u8 = 4;

pub const NOT_NUMBER: u8 = 5;

pub const TOO_LARGE: u8 = 6;

pub const ODD_HEX: u8 = 7;

pub const BAD_HEX: u8 = 8;

pub const TOO_MANY_IDS: u8 = 9;

pub const TOO_MANY_TITLES: u8 = 10;

pub const TOO_MANY_PLACES: u8 = 11;

pub const NOT_TIME: u8 = 12;

// Not read to its end yet.
pub const UNREAD: u8 = 13;

// How many there are.
const COMMANDS: usize = 35;

// What a line may name at most: ids of a status, titles of a share and rates of a planner, places of a plan, as many as the
// longest has, and places for a planner's list, one for each title. One title or rate more than the product takes, so that
// its own refusal is seen.
pub const IDS_MOST: usize = 32;

pub const TITLES_MOST: usize = 17;

pub const PLACES_MOST: usize = PLAN_PLACES;

pub const ROOM_MOST: usize = TITLES_MAX;

// The numbers of a title in a share: rate, length, floor and cap.
pub const TITLE_NUMBERS: usize = 4;

// Which of a share's numbers is its first title's length, from 0.
const SHARE_LENGTH: usize = 2;

// The numbers of a title in a balance: id and rate.
pub const RATED_NUMBERS: usize = 2;

// A status has a time and its ids, a share a pool and the numbers of its titles, a planner a time, a room and its rates, a
// balance a time and the numbers of its titles.
const STATUS_MOST: usize = 1 + IDS_MOST;

const PLANNER_MOST: usize = 2 + TITLES_MOST;

const SHARE_MOST: usize = 1 + TITLE_NUMBERS * TITLES_MOST;

const BALANCE_MOST: usize = 1 + RATED_NUMBERS * TITLES_MAX;

// No command limits more of its numbers than these.
const LIMITED: usize = 7;

// A row: the word, with spaces behind it, and blank where no word alone names the command; the fewest words after it and
// the most, where read and notice have no number, but HEX, which is a word; at which place, from 0, the numbers that are times
// or lengths begin, and how many they are; and by place the largest value of a number, where a larger one is an error of the
// line.
#[derive(Clone, Copy)]
pub struct Command {
    pub word: [u8; WORD_ROOM],
    pub least: usize,
    pub most: usize,
    pub time: usize,
    pub times: usize,
    pub limits: [u64; LIMITED],
}

// The longest word has so many letters.
const WORD_ROOM: usize = 8;

// The limits: any value is handed on, the fields of a notice, the places of a plan, and the room of a planner's list.
const ANY: u64 = 0;

const SEQUENCE: u64 = FOUR_BYTES_MOST;

const ID: u64 = BYTE_MOST;

const TIME: u64 = TOP;

const LENGTH: u64 = FOUR_BYTES_MOST;

const COUNT: u64 = BYTE_MOST;

const PLACES: u64 = PLACES_MOST as u64;

const ROOM: u64 = ROOM_MOST as u64;

const FREE: [u64; LIMITED] = [ANY; LIMITED];

// The row of a line that asks nothing.
const NOTHING: Command = Command {
    word: *b"        ",
    least: 0,
    most: 0,
    time: 0,
    times: 0,
    limits: FREE,
};

// The rows of the commands by their number.
static TABLE: [Command; COMMANDS] = [
    // none, fresh and the events
    NOTHING,
    Command {
        word: *b"fresh   ",
        least: 1,
        most: 1,
        time: 0,
        times: 0,
        limits: FREE,
    },
    Command {
        word: *b"open    ",
        least: 6,
        most: 6,
        time: 1,
        times: 2,
        limits: FREE,
    },
    Command {
        word: *b"change  ",
        least: 3,
        most: 3,
        time: 1,
        times: 1,
        limits: FREE,
    },
    Command {
        word: *b"close   ",
        least: 2,
        most: 2,
        time: 1,
        times: 1,
        limits: FREE,
    },
    Command {
        word: *b"hold    ",
        least: 2,
        most: 2,
        time: 1,
        times: 1,
        limits: FREE,
    },
    Command {
        word: *b"lift    ",
        least: 2,
        most: 2,
        time: 1,
        times: 1,
        limits: FREE,
    },
    Command {
        word: *b"skip    ",
        least: 4,
        most: 4,
        time: 1,
        times: 2,
        limits: FREE,
    },
    // what asks and tells
    Command {
        word: *b"lane    ",
        least: 3,
        most: 3,
        time: 2,
        times: 1,
        limits: FREE,
    },
    Command {
        word: *b"status  ",
        least: 1,
        most: STATUS_MOST,
        time: 0,
        times: 1,
        limits: FREE,
    },
    Command {
        word: *b"plan    ",
        least: 4,
        most: 5,
        time: 0,
        times: 0,
        limits: [ANY, ANY, ANY, ANY, PLACES, ANY, ANY],
    },
    Command {
        word: *b"share   ",
        least: 1,
        most: SHARE_MOST,
        time: 0,
        times: 0,
        limits: FREE,
    },
    Command {
        word: *b"read    ",
        least: 1,
        most: 1,
        time: 0,
        times: 0,
        limits: FREE,
    },
    Command {
        word: *b"notice  ",
        least: 1,
        most: 1,
        time: 0,
        times: 0,
        limits: FREE,
    },
    Command {
        word: *b"romlane ",
        least: 3,
        most: 3,
        time: 2,
        times: 1,
        limits: FREE,
    },
    Command {
        word: *b"romplan ",
        least: 4,
        most: 5,
        time: 0,
        times: 0,
        limits: [ANY, ANY, ANY, ANY, PLACES, ANY, ANY],
    },
    Command {
        word: *b"planner ",
        least: 2,
        most: PLANNER_MOST,
        time: 0,
        times: 1,
        limits: [ANY, ROOM, ANY, ANY, ANY, ANY, ANY],
    },
    Command {
        word: *b"skipplan",
        least: 2,
        most: 3,
        time: 0,
        times: 0,
        limits: [ANY, ANY, PLACES, ANY, ANY, ANY, ANY],
    },
    Command {
        word: *b"write   ",
        least: 2,
        most: 2,
        time: 0,
        times: 0,
        limits: [SEQUENCE, ANY, ANY, ANY, ANY, ANY, ANY],
    },
    Command {
        word: *b"help    ",
        least: 0,
        most: 0,
        time: 0,
        times: 0,
        limits: FREE,
    },
    // the kinds of a write, which two words name
    Command {
        word: *b"        ",
        least: 7,
        most: 7,
        time: 2,
        times: 2,
        limits: [SEQUENCE, ID, TIME, LENGTH, COUNT, COUNT, COUNT],
    },
    Command {
        word: *b"        ",
        least: 4,
        most: 4,
        time: 2,
        times: 1,
        limits: [SEQUENCE, ID, TIME, COUNT, ANY, ANY, ANY],
    },
    Command {
        word: *b"        ",
        least: 3,
        most: 3,
        time: 2,
        times: 1,
        limits: [SEQUENCE, ID, TIME, ANY, ANY, ANY, ANY],
    },
    Command {
        word: *b"        ",
        least: 3,
        most: 3,
        time: 2,
        times: 1,
        limits: [SEQUENCE, ID, TIME, ANY, ANY, ANY, ANY],
    },
    Command {
        word: *b"        ",
        least: 3,
        most: 3,
        time: 2,
        times: 1,
        limits: [SEQUENCE, ID, TIME, ANY, ANY, ANY, ANY],
    },
    Command {
        word: *b"        ",
        least: 5,
        most: 5,
        time: 2,
        times: 2,
        limits: [SEQUENCE, ID, TIME, LENGTH, COUNT, ANY, ANY],
    },
    // what shows a pool to people, with quit and draw
    Command {
        word: *b"when    ",
        least: 3,
        most: 3,
        time: 1,
        times: 1,
        limits: FREE,
    },
    Command {
        word: *b"balance ",
        least: 1,
        most: BALANCE_MOST,
        time: 0,
        times: 1,
        limits: FREE,
    },
    Command {
        word: *b"titles  ",
        least: 1,
        most: 1,
        time: 0,
        times: 1,
        limits: FREE,
    },
    Command {
        word: *b"lanes   ",
        least: 3,
        most: 3,
        time: 1,
        times: 1,
        limits: FREE,
    },
    Command {
        word: *b"quit    ",
        least: 0,
        most: 0,
        time: 0,
        times: 0,
        limits: FREE,
    },
    Command {
        word: *b"draw    ",
        least: 0,
        most: 0,
        time: 0,
        times: 0,
        limits: FREE,
    },
    Command {
        word: *b"        ",
        least: 2,
        most: 2,
        time: 1,
        times: 1,
        limits: FREE,
    },
    Command {
        word: *b"        ",
        least: 2,
        most: 2,
        time: 1,
        times: 1,
        limits: FREE,
    },
    Command {
        word: *b"        ",
        least: 2,
        most: 2,
        time: 1,
        times: 1,
        limits: FREE,
    },
];

// The row of a command; past the last, that of a line that asks nothing.
fn entry(command: u8) -> Command
    ensures { result ≡ command_of command }
{
    TABLE.get(command as usize).copied().unwrap_or(NOTHING)
}

// command where the word is its name, in either case, or other.
fn named(word: &[u8], command: u8, other: u8) -> u8
    ensures { result ≡ pick (same (lowered word.now) (name_of (command_of command))) command other }
{
    let row = entry(command);
    let name = row.word;
    let end = bytes::run_end(&name, 0, Sort::Word);
    if letters::alike(word, &name[..end]) {
        return command;
    }
    other
}

// The command that a word in either case names, or NONE.
pub fn verb(word: &[u8]) -> u8
    ensures { result ≡ verb_of word.now }
{
    let mut found = NONE;
    for command in (0..COMMANDS as u8).rev() {
        found = named(word, command, found);
    }
    found
}

// The most words that a command takes after its own.
pub fn most(command: u8) -> usize
    ensures { (result ≡ most_of command) × (result ≤ words_most) }
{
    entry(command).most
}

// Whether a command may end after so many words.
#[tactic(auto, unfolding(crate::specs::Commands::enough, crate::specs::Commands::least_of))]
pub fn enough(command: u8, count: usize) -> bool
    ensures { result ≡ suffices command count }
{
    match command {
        SHARE => count % TITLE_NUMBERS == 1,
        BALANCE => count % RATED_NUMBERS == 1,
        _ => entry(command).least <= count,
    }
}

// Whether a command's word is HEX.
#[tactic(auto, unfolding(crate::specs::Commands::takes_hex))]
pub fn takes_hex(command: u8) -> bool
    ensures { result ≡ takes_hex command }
{
    matches!(command, READ | NOTICE)
}

// Whether the next word is the kind of a notice to write, which follows the sequence.
#[tactic(auto, unfolding(crate::specs::Commands::takes_kind))]
pub fn takes_kind(command: u8, count: usize) -> bool
    ensures { result ≡ takes_kind command count }
{
    command == WRITE && count == 1
}

// Whether the next word may be an event whose time is asked for, which follows id and time.
#[tactic(auto, unfolding(crate::specs::Commands::takes_act))]
pub fn takes_act(command: u8, count: usize) -> bool
    ensures { result ≡ takes_act command count }
{
    command == WHEN && count == 2
}

// Whether the n-th number, from 0, is a time or a length.
#[tactic(auto, unfolding(crate::specs::Commands::is_timed))]
pub fn is_timed(command: u8, n: usize) -> bool
    ensures { result ≡ is_timed command n }
{
    if command == SHARE {
        return n % TITLE_NUMBERS == SHARE_LENGTH;
    }
    let row = entry(command);
    row.time <= n && n - row.time < row.times
}

// Whether a command asks for a plan, whose places may stand last.
#[tactic(auto, unfolding(crate::specs::Commands::asks_plan))]
pub fn asks_plan(command: u8) -> bool
    ensures { result ≡ asks_plan command }
{
    matches!(command, PLAN | SKIP_PLAN | ROM_PLAN)
}

// The limit of the n-th number, from 0.
#[tactic(auto, unfolding(crate::specs::Commands::limit_of))]
pub fn limit(command: u8, n: usize) -> u64
    ensures { result ≡ limit_of command n }
{
    entry(command).limits.get(n).copied().unwrap_or(0)
}

// The fault of a word too many.
#[tactic(auto, unfolding(crate::specs::Commands::crowded))]
pub fn crowded_fault(command: u8) -> u8
    ensures { result ≡ crowded command }
{
    match command {
        STATUS => TOO_MANY_IDS,
        SHARE => TOO_MANY_TITLES,
        _ => TOO_MANY,
    }
}

// The fault of a number above its limit.
pub fn oversized_fault(command: u8) -> u8
    ensures { result ≡ oversized command }
{
    if asks_plan(command) {
        return TOO_MANY_PLACES;
    }
    TOO_LARGE
}
