// A word read as a time: h:mm, h:mm:ss or h:mm:ss.mmm.

ghost use Rattle.std.specs.Prelude.{◌≡◌, ◌<◌, ◌≤◌, get_or};
ghost use Rattle.text.specs.Numbers.{capped};
ghost use Rattle.clocks.specs.Clocks.{
  has_colon,
  is_part,
  is_thousandths,
  is_tail,
  is_clock,
  pair_at,
  tail_ms,
  clock_ms,
};

use crate::{HOUR, MINUTE, SECOND};
use text::bytes::Sort;
use text::numbers::{Number, TOP};
use text::{bytes, numbers};

// Whether a word has a colon in it.
pub fn has_colon(word: &[u8]) -> bool
    ensures { result ≡ has_colon word.now }
{
    word.contains(&b':')
}

// The byte at a place; 0 past the end.
fn byte_at(word: &[u8], i: usize) -> u8
    ensures { result ≡ get_or word.now i 0 }
{
    word.get(i).copied().unwrap_or(0)
}

// Whether a colon and two digits, 00 to 59, stand at a place.
fn is_part(tail: &[u8], at: usize) -> bool
    requires { at ≤ 3 }
    ensures { result ≡ is_part tail.now at }
{
    byte_at(tail, at) == b':'
        && matches!(byte_at(tail, at + 1), b'0'..=b'5')
        && bytes::is_digit(byte_at(tail, at + 2))
}

// Whether a point and three digits stand behind minutes and seconds.
fn is_thousandths(tail: &[u8]) -> bool
    ensures { result ≡ is_thousandths tail.now }
{
    byte_at(tail, 6) == b'.'
        && bytes::is_digit(byte_at(tail, 7))
        && bytes::is_digit(byte_at(tail, 8))
        && bytes::is_digit(byte_at(tail, 9))
}

// Whether what stands behind the hours is :mm, :mm:ss or :mm:ss.mmm.
fn is_tail(tail: &[u8]) -> bool
    ensures { result ≡ is_tail tail.now }
{
    let size = tail.len();
    is_part(tail, 0)
        && (size == 3 || is_part(tail, 3) && (size == 6 || size == 10 && is_thousandths(tail)))
}

// Whether a word is a time in one of the three forms.
pub fn is_clock(word: &[u8]) -> bool
    ensures { result ≡ is_clock word.now }
{
    let n = bytes::run_end(word, 0, Sort::Digit);
    n != 0 && is_tail(&word[n..])
}

// The number of two digits.
fn pair_at(tail: &[u8], at: usize) -> u64
    requires { at ≤ 8 }
    ensures { (result ≡ pair_at tail.now at) × (result < 4096) }
{
    let tens = bytes::digit_of(byte_at(tail, at));
    let ones = bytes::digit_of(byte_at(tail, at + 1));
    10 * tens + ones
}

// The milliseconds of what stands behind the hours; what is not there counts as 0.
fn tail_ms(tail: &[u8]) -> u64
    ensures { (result ≡ tail_ms tail.now) × (result < 4294967296) }
{
    let minutes = pair_at(tail, 1);
    let seconds = pair_at(tail, 4);
    let hundreds = bytes::digit_of(byte_at(tail, 7));
    let thousandths = pair_at(tail, 8);
    MINUTE * minutes + SECOND * seconds + (100 * hundreds + thousandths)
}

// The milliseconds of a time of any size, held at most at the top.
pub fn clock(word: &[u8]) -> Number
    ensures { result ≡ capped (clock_ms word.now) }
{
    let hours = numbers::spelt(word, 0);
    let n = bytes::run_end(word, 0, Sort::Digit);
    let rest = tail_ms(&word[n..]);
    let value = hours.value;
    if (TOP - rest) / HOUR < value {
        return Number {
            value: TOP,
            over: true,
        };
    }
    Number {
        value: HOUR * value + rest,
        over: false,
    }
}
