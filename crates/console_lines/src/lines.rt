// A line of the console, read word by word until it is whole or something is wrong with it.

ghost use Rattle.std.specs.Prelude.{◌≡◌, ◌<◌, ◌≤◌, length};
ghost use Rattle.console_lines.specs.inner.Taking.{WordIn, Taken};
ghost use Rattle.console_lines.specs.Lines.{
  blank,
  with_fault,
  line_ended,
  with_digits,
  with_clock,
  with_number,
  with_act,
  with_kind,
  with_hex,
  with_word,
  line_ends_at,
  step as stepped,
  with_verb,
  begun,
  numbers_most,
  meaning,
};

use clocks::reading;
use console_commands::commands;
use text::bytes::Sort;
use text::numbers::Number;
use text::{bytes, numbers};

// No line is longer than this, its newline not counted.
pub const LONGEST_LINE: usize = 4095;

// Room for the numbers of a line; no command has so many.
pub const NUMBERS_MOST: usize = 72;

// What a line asks. Where fault is 0 the command is one of `commands`, NONE for a line that answers nothing, and its
// numbers are the first count of numbers, each at most the largest 64-bit number; of HEX the first two numbers are the
// places where its digits begin and end. Otherwise fault says what is wrong, and place at which byte, from 0.
#[derive(Clone, Copy)]
pub struct Line {
    pub command: u8,
    pub fault: u8,
    pub place: usize,
    pub count: usize,
    pub numbers: [u64; NUMBERS_MOST],
}

fn empty() -> Line
    ensures { result ≡ blank }
{
    Line {
        command: commands::NONE,
        fault: commands::NO_FAULT,
        place: 0,
        count: 0,
        numbers: [0; NUMBERS_MOST],
    }
}

fn faulted(line: Line, fault: u8, place: usize) -> Line
    ensures { result ≡ with_fault line fault place }
{
    let mut l = line;
    l.fault = fault;
    l.place = place;
    l
}

// The line has no further word.
fn end(line: Line, place: usize) -> Line
    ensures { result ≡ line_ended line place }
{
    if commands::enough(line.command, line.count) {
        return faulted(line, commands::NO_FAULT, place);
    }
    faulted(line, commands::TOO_FEW, place)
}

// The word from a to e is the number n.
fn take_amount(line: Line, n: Number, a: usize, e: usize) -> Line
    requires { line.count < numbers_most }
    ensures { Taken line n a e result }
{
    let command = line.command;
    let count = line.count;
    if numbers::above(commands::limit(command, count), n) {
        return faulted(line, commands::oversized_fault(command), a);
    }
    let mut l = line;
    l.numbers[count] = n.value;
    l.count = count + 1;
    l.place = e;
    l
}

// The word from a to e is a number in decimal.
fn take_digits(s: &[u8], line: Line, a: usize, e: usize) -> Line
    requires { line.count < numbers_most }
    ensures { result ≡ with_digits s.now line a e }
{
    let p = bytes::run_end(s, a, Sort::Digit);
    if p < e {
        return faulted(line, commands::NOT_NUMBER, p);
    }
    take_amount(line, numbers::spelt(s, a), a, e)
}

// The word is a time of the clock.
fn take_clock(word: &[u8], line: Line, a: usize, e: usize) -> Line
    requires { line.count < numbers_most }
    ensures { result ≡ with_clock word.now line a e }
{
    if reading::is_clock(word) {
        return take_amount(line, reading::clock(word), a, e);
    }
    faulted(line, commands::NOT_TIME, a)
}

// The word from a to e, which is its end, is a number; a time or a length that has a colon in it is one of the clock.
fn take_number(s: &[u8], line: Line, a: usize, e: usize) -> Line
    requires { (line.count < numbers_most) × WordIn s.now a e }
    ensures { result ≡ with_number s.now line a e }
{
    if commands::is_timed(line.command, line.count) && reading::has_colon(&s[a..e]) {
        return take_clock(&s[a..e], line, a, e);
    }
    take_digits(s, line, a, e)
}

// The word from a to e, which is its end, is an event whose time is asked for, or a number.
fn take_act(s: &[u8], line: Line, a: usize, e: usize) -> Line
    requires { (line.count < numbers_most) × WordIn s.now a e }
    ensures { result ≡ with_act s.now line a e }
{
    let v = commands::verb(&s[a..e]);
    if v < commands::CLOSE || commands::LIFT < v {
        return take_number(s, line, a, e);
    }
    let mut l = line;
    l.command = commands::WHEN_CLOSE + (v - commands::CLOSE);
    l.place = e;
    l
}

// The word is the kind of the notice to write.
fn take_kind(word: &[u8], line: Line, a: usize, e: usize) -> Line
    ensures { result ≡ with_kind word.now line a e }
{
    let v = commands::verb(word);
    if v < commands::OPEN || commands::SKIP < v {
        return faulted(line, commands::UNKNOWN_WORD, a);
    }
    let mut l = line;
    l.command = commands::WRITE + v;
    l.place = e;
    l
}

// The word from a to e is hexadecimal.
fn take_hex(s: &[u8], line: Line, a: usize, e: usize) -> Line
    requires { a ≤ e }
    ensures { result ≡ with_hex s.now line a e }
{
    let p = bytes::run_end(s, a, Sort::Hex);
    if p < e {
        return faulted(line, commands::BAD_HEX, p);
    }
    if (e - a) % 2 == 1 {
        return faulted(line, commands::ODD_HEX, a);
    }
    let mut l = line;
    l.numbers[0] = a as u64;
    l.numbers[1] = e as u64;
    l.count = 1;
    l.place = e;
    l
}

// The next word starts at a.
fn take_word(s: &[u8], line: Line, a: usize) -> Line
    requires { a < length s.now }
    ensures { result ≡ with_word s.now line a }
{
    let command = line.command;
    let count = line.count;
    if commands::most(command) <= count {
        return faulted(line, commands::crowded_fault(command), a);
    }
    let e = bytes::run_end(s, a, Sort::Word);
    if commands::takes_hex(command) {
        return take_hex(s, line, a, e);
    }
    if commands::takes_kind(command, count) {
        return take_kind(&s[a..e], line, a, e);
    }
    if commands::takes_act(command, count) {
        return take_act(s, line, a, e);
    }
    take_number(s, line, a, e)
}

// Whether a word that begins with # stands at a place, or nothing.
#[tactic(auto, unfolding(crate::specs::Lines::line_ends_at))]
fn ends_at(s: &[u8], a: usize) -> bool
    ensures { result ≡ line_ends_at s.now a }
{
    s.get(a).is_none_or(|b| *b == b'#')
}

// The next word, or the line's end.
fn step(s: &[u8], line: Line) -> Line
    ensures { result ≡ stepped s.now line }
{
    let place = line.place;
    let a = bytes::run_end(s, place, Sort::Separator);
    if ends_at(s, a) {
        return end(line, a);
    }
    take_word(s, line, a)
}

// The first word, from a to e, is the command.
fn take_verb(v: u8, a: usize, e: usize) -> Line
    ensures { result ≡ with_verb v a e }
{
    if v == commands::NONE {
        return faulted(empty(), commands::UNKNOWN_WORD, a);
    }
    Line {
        command: v,
        fault: commands::UNREAD,
        place: e,
        count: 0,
        numbers: [0; NUMBERS_MOST],
    }
}

fn begin(s: &[u8]) -> Line
    ensures { result ≡ begun s.now }
{
    if LONGEST_LINE < s.len() {
        return faulted(empty(), commands::TOO_LONG, LONGEST_LINE);
    }
    let a = bytes::run_end(s, 0, Sort::Separator);
    if ends_at(s, a) {
        return empty();
    }
    let e = bytes::run_end(s, a, Sort::Word);
    take_verb(commands::verb(&s[a..e]), a, e)
}

// What a line means, given without its newline.
pub fn parse(s: &[u8]) -> Line
    ensures { result ≡ meaning s.now }
{
    let mut line = begin(s);
    for _ in 0..NUMBERS_MOST {
        if line.fault != commands::UNREAD {
            return line;
        }
        line = step(s, line);
    }
    line
}
