// A notice as a row of eight numbers, for callers that have no record: kind, sequence, title, time, length, floor, cap and count,
// with 0 where its kind has no such field. No public function has a `requires`, and a refusal writes nothing.
#![tactic(auto)]

ghost use Rattle.std.specs.Prelude.{◌≡◌, ◌++◌, ◌≤◌, length, drop};
ghost use Rattle.notice_fields.specs.Fields.{rows, length_of};
ghost use Rattle.notice_rows.specs.Rows.{fields_of};
ghost use Rattle.notice_rows.specs.Calls.{unwritten, WritesRow, ReadsRow, StepsRow};

use fitting::is_notice;
use notice::encode::values;
use notice::{Found, Notice, Reading};
use notice_bytes::laying::put_rows;
use notice_fields::fields::{KIND, ROWS, start};
use rules::{DONE, MALFORMED, OUTSIDE_LIMITS, WRONG_ROWS};

mod fitting;

// The numbers of a notice's row, one for each field of the table.
pub const PLACES: usize = ROWS;

// What `next` answers where a log has no byte left. It is no refusal, and no refusal has this number.
pub const END: u8 = 255;

// What `write` gives back: its answer, and how many bytes were written, 0 beside a refusal.
// kept: the answer is 01's number, and `WritesRow` promises both fields
#[derive(Clone, Copy)]
pub struct Written {
    pub answer: u8,
    pub bytes: u64,
}

// What `next` gives back: its answer, and the place to go on from. The place stays unless the answer is 0.
// kept: the answer is 01's number, and `StepsRow` promises both fields
#[derive(Clone, Copy)]
pub struct Step {
    pub answer: u8,
    pub place: u64,
}

fn refused(answer: u8) -> Written
    ensures { result ≡ unwritten answer }
{
    Written { answer, bytes: 0 }
}

// The kinds that the table could have a bit for.
const KIND_BITS: u64 = 8;

// How many bytes a notice of a kind has, 0 for a number that is no kind's.
fn size_of(kind: u64) -> usize
    ensures { result ≡ length_of kind }
{
    if kind < KIND_BITS {
        return start(kind as u8, ROWS);
    }
    0
}

// The numbers of a row of eight, by value.
fn eight(fields: &[u64]) -> [u64; ROWS]
    requires { length fields.now ≡ rows }
    ensures { result ≡ fields.now }
{
    let mut row = [0; ROWS];
    row.copy_from_slice(fields);
    row
}

// Writes the notice of a row at the start of the room: 0, and later bytes stay. 10 where the row has not eight numbers or the room
// is shorter than its kind's notice; 1 where the row is no notice's, by its kind or by a number that its field does not hold.
pub fn write(fields: &[u64], room: &mut [u8]) -> Written
    ensures { WritesRow fields.now room.old result room.new }
{
    if fields.len() != ROWS {
        return refused(WRONG_ROWS);
    }
    let kind = fields[KIND];
    let size = size_of(kind);
    if room.len() < size {
        return refused(WRONG_ROWS);
    }
    if is_notice(fields) {
        put_rows(room, kind as u8, eight(fields));
        return Written {
            answer: DONE,
            bytes: size as u64,
        };
    }
    refused(OUTSIDE_LIMITS)
}

// A notice's numbers go to the start of a row, and later places stay.
fn fill(fields: &mut [u64], n: Notice)
    requires { rows ≤ length fields.old }
    ensures { fields.new ≡ fields_of n ++ drop rows fields.old }
{
    fields[..ROWS].copy_from_slice(&values(n));
}

// Reads one notice and nothing after it into the first eight places of a row: 0. 10 where the row is shorter, before all else; 11.
pub fn read(bytes: &[u8], fields: &mut [u64]) -> u8
    ensures { ReadsRow bytes.now fields.old result fields.new }
{
    if fields.len() < ROWS {
        return WRONG_ROWS;
    }
    let reading = notice::read(bytes);
    match reading {
        Reading::Whole(n) => {
            fill(fields, n);
            DONE
        }
        Reading::Malformed => MALFORMED,
    }
}

// Reads what a log has at a place into the first eight places of a row: 0 and the place after it. 10 where the row is shorter, before
// all else; 11; 255 where no byte is left.
pub fn next(log: &[u8], place: u64, fields: &mut [u64]) -> Step
    ensures { StepsRow log.now place fields.old result fields.new }
{
    if fields.len() < ROWS {
        return Step {
            answer: WRONG_ROWS,
            place,
        };
    }
    let found = notice::read_at(log, place as usize);
    match found {
        Found::At(n, end) => {
            fill(fields, n);
            Step {
                answer: DONE,
                place: end as u64,
            }
        }
        Found::End => Step { answer: END, place },
        Found::Malformed => Step {
            answer: MALFORMED,
            place,
        },
    }
}
