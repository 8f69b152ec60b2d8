// The number that a run of digits spells, and the bytes that hexadecimal digits spell.

ghost use Rattle.std.specs.Prelude.{◌≡◌, min, drop};
ghost use Rattle.text.specs.Numbers.{grow as grown, capped, amount, above as beyond, byte_most, four_bytes_most};

use crate::bytes;

// A number of any size, held at most at TOP; over says that it was larger.
#[derive(Clone, Copy)]
pub struct Number {
    pub value: u64,
    pub over: bool,
}

// The largest numbers of one byte, of four and of eight.
pub const BYTE_MOST: u64 = 255;

pub const FOUR_BYTES_MOST: u64 = 4_294_967_295;

pub const TOP: u64 = 18_446_744_073_709_551_615;

// The number with one more digit behind it.
pub fn grow(n: Number, b: u8) -> Number
    ensures { result ≡ grown n b }
{
    let value = n.value;
    let over = n.over;
    let d = bytes::digit_of(b);
    if (TOP - d) / 10 < value {
        return Number {
            value: TOP,
            over: true,
        };
    }
    Number {
        value: 10 * value + d,
        over,
    }
}

// The number that the digits from `from` on spell; 0 where none stands there.
pub fn spelt(s: &[u8], from: usize) -> Number
    ensures { result ≡ capped (amount 0 (drop from s.now)) }
{
    let mut n = Number {
        value: 0,
        over: false,
    };
    for i in from..s.len() {
        let b = s[i];
        if !bytes::is_digit(b) {
            return n;
        }
        n = grow(n, b);
    }
    n
}

// Whether a number is above a limit, where 0 is none.
pub fn above(limit: u64, n: Number) -> bool
    ensures { result ≡ beyond limit n }
{
    limit != 0 && (n.over || limit < n.value)
}

// A number as a parameter of one byte takes it: at most its largest value, so that the call itself refuses it.
pub fn as_byte(n: u64) -> u8
    ensures { result ≡ min n byte_most }
{
    n.min(BYTE_MOST) as u8
}

// The same for a parameter of four bytes.
pub fn as_four_bytes(n: u64) -> u32
    ensures { result ≡ min n four_bytes_most }
{
    n.min(FOUR_BYTES_MOST) as u32
}
