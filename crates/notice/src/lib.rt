// The notices that carry the head-end's events to every box (01, "Notices"; hold and lift by 02, request 7, the
// opening of a skip-forward title by request 12): one record in memory, its bytes, and a reader of logs. Every record can be
// written, since each part has exactly the width of its field in the table.
// No public function has a `requires`: any bytes and any place have an answer.
#![tactic(auto)]

ghost use Rattle.std.specs.Prelude.{◌≡◌, ◌+◌, ◌<◌, ◌^◌, length, drop};
ghost use Rattle.notice.specs.Encode.{kind_of, bytes_of, Writes};
ghost use Rattle.notice.specs.Decode.{Reads, Finds, Steps, place_after, further};

use decode::notice_in;
use encode::values;
use notice_bytes::laying::put_rows;
use notice_bytes::standing::{alone, whole_at};
use notice_fields::fields::{HEAD, ROWS, start};

mod decode;
pub mod encode;

pub use notice_bytes::window;

#[derive(Clone, Copy)]
pub struct Notice {
    pub sequence: u32,
    pub title: u8,
    pub time: u64,
    pub kind: Kind,
}

// A kind carries only its own data.
#[derive(Clone, Copy)]
pub enum Kind {
    Open {
        length: u32,
        floor: u8,
        cap: u8,
        count: u8,
    },
    Change {
        count: u8,
    },
    Close,
    Hold,
    Lift,
    Skip {
        length: u32,
        count: u8,
    },
}

// The kinds by their numbers.
pub const OPEN: u8 = 1;

pub const CHANGE: u8 = 2;

pub const CLOSE: u8 = 3;

pub const HOLD: u8 = 4;

pub const LIFT: u8 = 5;

// Opens a skip-forward title.
pub const SKIP: u8 = 6;

// The bytes of the longest notice, an open.
pub const LONGEST_NOTICE: usize = notice_fields::fields::LONGEST;

pub fn kind_number(kind: Kind) -> u8
    ensures { result ≡ kind_of kind }
{
    match kind {
        Kind::Open {
            length: _,
            floor: _,
            cap: _,
            count: _,
        } => OPEN,
        Kind::Change { count: _ } => CHANGE,
        Kind::Close => CLOSE,
        Kind::Hold => HOLD,
        Kind::Lift => LIFT,
        Kind::Skip {
            length: _,
            count: _,
        } => SKIP,
    }
}

// What one notice's bytes read as.
// kept: `Reads`, a public contract, and definitions of crates above say its variants
#[derive(Clone, Copy)]
pub enum Reading {
    Whole(Notice),
    Malformed,
}

// What a log has at a place: a notice and the place after it, no byte more, or no notice.
// kept: `Finds` and `Steps`, public contracts, and definitions of crates above say its variants
#[derive(Clone, Copy)]
pub enum Found {
    At(Notice, usize),
    End,
    Malformed,
}

// Writes the notice at the start of the room: 0, and later bytes stay; 10 where the room is too short, and nothing is written.
pub fn write(n: Notice, room: &mut [u8]) -> u8
    ensures { Writes n room.old result room.new }
{
    let data = n.kind;
    let kind = kind_number(data);
    if room.len() < start(kind, ROWS) {
        return rules::WRONG_ROWS;
    }
    put_rows(room, kind, values(n));
    rules::DONE
}

// How many bytes the notice has, for callers that write one after another.
pub fn size(n: Notice) -> usize
    ensures { result ≡ length (bytes_of n) }
{
    let data = n.kind;
    start(kind_number(data), ROWS)
}

// Reads at a place of a log. The place may be any, also past the end.
pub fn read_at(log: &[u8], place: usize) -> Found
    ensures { Finds log.now place result }
{
    if log.len() <= place {
        return Found::End;
    }
    if whole_at(log, place) {
        let kind = log[place + HEAD];
        Found::At(notice_in(log, place, kind), place + start(kind, ROWS))
    } else {
        Found::Malformed
    }
}

// Reads one notice and nothing after it.
pub fn read(bytes: &[u8]) -> Reading
    ensures { Reads bytes.now result }
{
    if alone(bytes) {
        Reading::Whole(notice_in(bytes, 0, bytes[HEAD]))
    } else {
        Reading::Malformed
    }
}

// A reader that keeps its log and its place.
#[derive(Clone, Copy)]
pub struct Log<'a> {
    pub bytes: &'a [u8],
    pub place: usize,
}

// Where a reader goes on after an answer: past a notice, and nowhere after "end" and 11.
fn place_after(found: Found, place: usize) -> usize
    ensures { result ≡ place_after found place }
{
    match found {
        Found::At(_, end) => end,
        Found::End => place,
        Found::Malformed => place,
    }
}

// The part of a log from a place on: no byte where the place is the end or past it.
fn part_from(bytes: &[u8], place: usize) -> &[u8]
    ensures { result.now ≡ drop place bytes.now }
{
    let size = bytes.len();
    if size < place {
        return &bytes[size..];
    }
    &bytes[place..]
}

// What a part of a log has at its start, with the place after it counted in the log: the part begins at a place of it.
fn counted_on(found: Found, place: usize) -> Found
    requires { place + place_after found 0 < 2 ^ 64 }
    ensures { result ≡ further place found }
{
    match found {
        Found::At(n, end) => Found::At(n, place + end),
        Found::End => Found::End,
        Found::Malformed => Found::Malformed,
    }
}

// What a log has at a place, read at the start of its part from there on.
fn found_from(bytes: &[u8], place: usize) -> Found
    ensures { Finds bytes.now place result }
{
    let first = read_at(part_from(bytes, place), 0);
    counted_on(first, place)
}

// The next answer of a log, which moves past a notice.
pub fn next<'s, 'a>(log: &'s mut Log<'a>) -> Found
    ensures { Steps log.old.bytes.now log.old.place result log.new.place
        × (log.new.bytes ≡ log.old.bytes) }
{
    let place = log.place;
    let found = found_from(log.bytes, place);
    let after = place_after(found, place);
    log.place = after;
    found
}

// The same from a log and a place, for callers that keep no reader.
pub fn next_in(bytes: &[u8], place: usize) -> Found
    ensures { Finds bytes.now place result }
{
    let mut log = Log { bytes, place };
    next(&mut log)
}
