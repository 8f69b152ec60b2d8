// The numbers of a line: which quantity stands at each place behind a command, with its name as in the usage and its limits.

ghost use Rattle.std.specs.Prelude.{◌<◌, ◌≡◌};
ghost use Rattle.text.specs.Pages.{Puts};
ghost use Rattle.console_limits.specs.Quantities.{
  bounds_of,
  quantity_name,
  row_of,
  repeated as repeatedAt,
  column_of,
  quantity_at,
  is_out,
};

use console_commands::commands;
use rules::{
    ASKED_MAX, COUNT_MAX, COUNT_MIN, EVENT_TIME_MAX, FLOOR_MAX, FLOOR_MIN, ID_MAX, LANE_MAX,
    LENGTH_MAX, LENGTH_MIN, POOL_MAX, POOL_MIN, RATE_MAX, RATE_MIN, STEADY_MAX, within,
};
use text::numbers::TOP;
use text::page::Page;
use words::lines::put_line;

// The quantities by number; any number will do where none stands.
// kept: numbers and no enum, since `bounds_of` and `put_name` answer for every u8 (specs/Quantities `bounds_of`).
const ANY: u8 = 0;

const POOL: u8 = 1;

const ID: u8 = 2;

// Of an event.
const TIME: u8 = 3;

const LENGTH: u8 = 4;

const FLOOR: u8 = 5;

const CAP: u8 = 6;

const COUNT: u8 = 7;

// Of a skip-forward title.
const STEADY: u8 = 8;

const LANE: u8 = 9;

// The time of a question.
const ASKED: u8 = 10;

const ARRIVAL: u8 = 11;

const RATE: u8 = 12;

const TICKS: u8 = 13;

// How many there are.
const QUANTITIES: usize = 14;

// The ticks over which `lanes` shows a title.
pub const TICKS_MIN: u64 = 1;

pub const TICKS_MOST: u64 = 32;

// From a least number to a largest, both allowed.
#[derive(Clone, Copy)]
pub struct Bounds {
    pub low: u64,
    pub high: u64,
}

const FREE: Bounds = Bounds { low: 0, high: TOP };

// The limits of each quantity, by its number.
static BOUNDS: [Bounds; QUANTITIES] = [
    FREE,
    Bounds {
        low: POOL_MIN,
        high: POOL_MAX,
    },
    Bounds {
        low: 0,
        high: ID_MAX,
    },
    Bounds {
        low: 0,
        high: EVENT_TIME_MAX,
    },
    Bounds {
        low: LENGTH_MIN,
        high: LENGTH_MAX,
    },
    Bounds {
        low: FLOOR_MIN,
        high: FLOOR_MAX,
    },
    Bounds {
        low: COUNT_MIN,
        high: COUNT_MAX,
    },
    Bounds {
        low: COUNT_MIN,
        high: COUNT_MAX,
    },
    Bounds {
        low: COUNT_MIN,
        high: STEADY_MAX,
    },
    Bounds {
        low: 0,
        high: LANE_MAX,
    },
    Bounds {
        low: 0,
        high: ASKED_MAX,
    },
    Bounds {
        low: 0,
        high: ASKED_MAX,
    },
    Bounds {
        low: RATE_MIN,
        high: RATE_MAX,
    },
    Bounds {
        low: TICKS_MIN,
        high: TICKS_MOST,
    },
];

pub fn bounds_of(quantity: u8) -> Bounds
    ensures { result ≡ bounds_of quantity }
{
    BOUNDS.get(quantity as usize).copied().unwrap_or(FREE)
}

// The name of a quantity, each the line of its number.
pub fn put_name(page: &mut Page<'_>, quantity: u8)
    ensures { Puts page.old (quantity_name quantity) page.new }
{
    let names = b"\n\
        POOL\n\
        ID\n\
        TIME\n\
        LENGTH\n\
        FLOOR\n\
        CAP\n\
        COUNT\n\
        COUNT\n\
        LANE\n\
        TIME\n\
        ARRIVAL\n\
        RATE\n\
        TICKS\n";
    put_line(page, names, quantity);
}

// No command has more quantities before they repeat.
const WIDTH: usize = 6;

// The quantities behind a command, in their order; what repeats stands once.
#[derive(Clone, Copy)]
pub struct Row {
    pub quantities: [u8; WIDTH],
}

const NOTHING: Row = Row {
    quantities: [ANY; WIDTH],
};

// Of an event without a count: a close, a hold and a lift.
const PLAIN: Row = Row {
    quantities: [ID, TIME, ANY, ANY, ANY, ANY],
};

const CHANGE: Row = Row {
    quantities: [ID, TIME, COUNT, ANY, ANY, ANY],
};

const LANE_ROW: Row = Row {
    quantities: [ID, LANE, ASKED, ANY, ANY, ANY],
};

const PLAN: Row = Row {
    quantities: [FLOOR, CAP, COUNT, ARRIVAL, ANY, ANY],
};

const COMMANDS: usize = 35;

// A row for each command, by its number.
static ROWS: [Row; COMMANDS] = [
    // none, fresh, open
    NOTHING,
    Row {
        quantities: [POOL, ANY, ANY, ANY, ANY, ANY],
    },
    Row {
        quantities: [ID, TIME, LENGTH, FLOOR, CAP, COUNT],
    },
    // change, close, hold, lift, skip
    CHANGE,
    PLAIN,
    PLAIN,
    PLAIN,
    Row {
        quantities: [ID, TIME, LENGTH, STEADY, ANY, ANY],
    },
    // lane, status, plan, share
    LANE_ROW,
    Row {
        quantities: [ASKED, ID, ANY, ANY, ANY, ANY],
    },
    PLAN,
    Row {
        quantities: [POOL, RATE, LENGTH, FLOOR, CAP, ANY],
    },
    // read, notice, romlane, romplan
    NOTHING,
    NOTHING,
    LANE_ROW,
    PLAN,
    // planner, whose room may be any, skipplan
    Row {
        quantities: [TIME, ANY, RATE, ANY, ANY, ANY],
    },
    Row {
        quantities: [STEADY, ARRIVAL, ANY, ANY, ANY, ANY],
    },
    // write, help, the kinds of a write: their fields' sizes are the line's own limits
    NOTHING,
    NOTHING,
    NOTHING,
    NOTHING,
    NOTHING,
    NOTHING,
    NOTHING,
    NOTHING,
    // when, balance, titles, lanes, quit, draw
    CHANGE,
    Row {
        quantities: [TIME, ID, RATE, ANY, ANY, ANY],
    },
    Row {
        quantities: [ASKED, ANY, ANY, ANY, ANY, ANY],
    },
    Row {
        quantities: [ID, ASKED, TICKS, ANY, ANY, ANY],
    },
    NOTHING,
    NOTHING,
    // when of a close, of a hold, of a lift
    PLAIN,
    PLAIN,
    PLAIN,
];

fn row_of(command: u8) -> Row
    ensures { result ≡ row_of command }
{
    ROWS.get(command as usize).copied().unwrap_or(NOTHING)
}

// The column of a place from which on so many quantities repeat, from a first column on.
fn repeated(first: usize, many: usize, place: usize) -> usize
    requires { 0 < many }
    ensures { result ≡ repeatedAt first many place }
{
    if place < first {
        return place;
    }
    first + (place - first) % many
}

// The column of a place: the ids of a status repeat, the titles of a share, the rates of a planner, the pairs of a balance.
#[tactic(auto, unfolding(crate::specs::Quantities::column_of))]
fn column_of(command: u8, place: usize) -> usize
    ensures { result ≡ column_of command place }
{
    match command {
        commands::STATUS => repeated(1, 1, place),
        commands::SHARE => repeated(1, commands::TITLE_NUMBERS, place),
        commands::PLANNER => repeated(2, 1, place),
        commands::BALANCE => repeated(1, commands::RATED_NUMBERS, place),
        _ => place,
    }
}

// The quantity at a place of a line, from 0.
#[tactic(auto, unfolding(crate::specs::Quantities::quantity_at))]
pub fn quantity_at(command: u8, place: usize) -> u8
    ensures { result ≡ quantity_at command place }
{
    row_of(command)
        .quantities
        .get(column_of(command, place))
        .copied()
        .unwrap_or(ANY)
}

// Whether a number is out of a quantity's limits.
pub fn is_out(quantity: u8, x: u64) -> bool
    ensures { result ≡ is_out quantity x }
{
    let b = bounds_of(quantity);
    !within(b.low, b.high, x)
}
