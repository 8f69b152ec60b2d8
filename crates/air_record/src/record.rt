// A record in a text: a tick a line, for each lane the cell that was seen or `-` for nothing, with spaces, tabs or carriage
// returns between. Blank lines do not count.

ghost use Rattle.std.specs.Prelude.{◌≡◌};
ghost use Rattle.text.specs.Output.{page, put as laid};
ghost use Rattle.air_record.specs.Record.{so_far, cell_spelt, one_more_of, ending_cell, closing, spelling, taking_byte, all_taken};

use judging::NOTHING_SEEN;
use rules::LANE_PLACES;
use text::bytes::{is_digit, is_separator};
use text::numbers::{Number, grow};

// What a number that 16 bits do not hold is handed on as: no title has such a cell.
const NO_CELL: u16 = 65_534;

// What is wrong with a text: nothing, a word that is no number, a line with too few or too many of them.
pub const SOUND: u8 = 0;

pub const NO_NUMBER: u8 = 1;

pub const NOT_TWELVE: u8 = 2;

// A text as far as it was read: how many numbers of it are in the row; the number being spelt, whether one is, and whether by a
// dash; the line, counted from 1, and how many words of it have ended; and what is wrong, if anything is, with that word and line.
#[derive(Clone, Copy)]
pub struct Scan {
    pub count: usize,
    pub value: u64,
    pub inside: bool,
    pub dash: bool,
    pub words: u64,
    pub line: u64,
    pub fault: u8,
}

fn cell_of(value: u64) -> u16
    ensures { result ≡ cell_spelt value }
{
    if value > NOTHING_SEEN as u64 {
        return NO_CELL;
    }
    value as u16
}

pub fn one_more(n: u64) -> u64
    ensures { result ≡ one_more_of n }
{
    n.saturating_add(1)
}

// One number, where there is room for it.
fn put_cell(row: &mut [u16], at: usize, cell: u16) -> usize
    ensures { page row.new result ≡ laid (page row.old at) cell }
{
    if at < row.len() {
        row[at] = cell;
        return at + 1;
    }
    at
}

// A word ends: the number that was being spelt, if one was, goes into the row.
fn end_word(scan: Scan, row: &mut [u16]) -> Scan
    ensures { so_far row.new result ≡ ending_cell (so_far row.old scan) }
{
    let count = scan.count;
    let value = scan.value;
    let inside = scan.inside;
    let words = scan.words;
    let line = scan.line;
    let fault = scan.fault;
    if inside {
        let next = put_cell(row, count, cell_of(value));
        return Scan {
            count: next,
            value: 0,
            inside: false,
            dash: false,
            words: one_more(words),
            line,
            fault,
        };
    }
    scan
}

// A line ends behind its last word: it has a number for each lane, or none.
fn end_line(scan: Scan) -> Scan
    ensures { result ≡ closing scan }
{
    let mut next = scan;
    let words = scan.words;
    let line = scan.line;
    if words == 0 {
        next.line = one_more(line);
        return next;
    }
    if words == LANE_PLACES as u64 {
        next.words = 0;
        next.line = one_more(line);
        return next;
    }
    next.fault = NOT_TWELVE;
    next
}

// The word is no number.
fn fail(scan: Scan) -> Scan
    ensures { result ≡ Rattle.air_record.specs.Record.failing scan }
{
    let mut next = scan;
    let words = scan.words;
    next.words = one_more(words);
    next.fault = NO_NUMBER;
    next
}

// One byte more of a word: a digit behind digits, or a dash by itself.
fn spell(scan: Scan, b: u8) -> Scan
    ensures { result ≡ spelling scan b }
{
    let mut next = scan;
    let value = scan.value;
    let inside = scan.inside;
    let dash = scan.dash;
    if is_digit(b) {
        if dash {
            return fail(scan);
        }
        let n = Number { value, over: false };
        let longer = grow(n, b);
        next.value = longer.value;
        next.inside = true;
        return next;
    }
    if b == b'-' {
        if inside {
            return fail(scan);
        }
        next.value = NOTHING_SEEN as u64;
        next.inside = true;
        next.dash = true;
        return next;
    }
    fail(scan)
}

// One byte more of the text.
fn take_byte(scan: Scan, b: u8, row: &mut [u16]) -> Scan
    ensures { so_far row.new result ≡ taking_byte (so_far row.old scan) b }
{
    let fault = scan.fault;
    if fault == SOUND {
        if b == b'\n' {
            let ended = end_word(scan, row);
            return end_line(ended);
        }
        if is_separator(b) {
            return end_word(scan, row);
        }
        return spell(scan, b);
    }
    scan
}

// All of a text, its numbers into the start of a row as far as it has room; the text's end ends its last line.
pub fn take_text(text: &[u8], row: &mut [u16]) -> Scan
    ensures { so_far row.new result ≡ all_taken text.now row.old }
{
    let mut scan = Scan {
        count: 0,
        value: 0,
        inside: false,
        dash: false,
        words: 0,
        line: 1,
        fault: SOUND,
    };
    for b in text {
        scan = take_byte(scan, *b, row);
    }
    take_byte(scan, b'\n', row)
}
