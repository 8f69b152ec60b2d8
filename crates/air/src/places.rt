// On which line of a record's text a number stands.

ghost use Rattle.std.specs.Prelude.{◌≡◌};
ghost use Rattle.air.specs.Places.{passing, kept_line, line_in};

use air_record::record::one_more;
use text::bytes::is_separator;

// A text as far as it was passed: how many words have begun, whether one has not ended, and the line, counted from 1.
#[derive(Clone, Copy)]
struct Passed {
    words: u64,
    inside: bool,
    line: u64,
}

// One byte more.
fn pass(passed: Passed, b: u8) -> Passed
    ensures { result ≡ passing passed b }
{
    let mut next = passed;
    let words = passed.words;
    let inside = passed.inside;
    let line = passed.line;
    if b == b'\n' {
        next.inside = false;
        next.line = one_more(line);
        return next;
    }
    if is_separator(b) {
        next.inside = false;
        return next;
    }
    next.inside = true;
    if inside {
        return next;
    }
    next.words = one_more(words);
    next
}

// The line so far of word k, counted from 0: that of the place, until the word has begun.
fn keep_line(line: u64, passed: Passed, k: u64) -> u64
    ensures { result ≡ kept_line line passed k }
{
    if k < passed.words {
        return line;
    }
    passed.line
}

// The line of word k, counted from 0; the last that a byte stands on where there are not so many.
pub fn line_of(text: &[u8], k: u64) -> u64
    ensures { result ≡ line_in text.now k }
{
    let mut passed = Passed {
        words: 0,
        inside: false,
        line: 1,
    };
    let mut line = 1;
    for b in text {
        line = keep_line(line, passed, k);
        passed = pass(passed, *b);
    }
    line
}
