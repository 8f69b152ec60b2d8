// Numbers in decimal, bytes in hexadecimal, and hexadecimal back into bytes.

ghost use Rattle.std.specs.Prelude.{◌≡◌, ◌<◌};
ghost use Rattle.text.specs.Output.{Written};
ghost use Rattle.text.specs.Digits.{Made, decimal as decimalText, letter_of, hex_text, hex_of, hex_bytes};

use crate::output;

// So many digits hold every 64-bit number.
const DIGITS_MOST: usize = 20;

// The digits of a number: those of row from `from` on.
#[derive(Clone, Copy)]
struct Digits {
    row: [u8; DIGITS_MOST],
    from: usize,
}

fn decimal(n: u64) -> Digits
    ensures { Made n result }
{
    let mut row = [0u8; DIGITS_MOST];
    let mut left = n;
    for i in (0..DIGITS_MOST).rev() {
        row[i] = (48 + left % 10) as u8;
        if left < 10 {
            return Digits { row, from: i };
        }
        left /= 10;
    }
    Digits { row, from: 0 }
}

// The number in decimal.
pub fn put_number(out: &mut [u8], at: usize, n: u64) -> usize
    ensures { Written out.old at (decimalText n) out.new result }
{
    let d = decimal(n);
    let row = d.row;
    let from = d.from;
    output::put(out, at, &row[from..])
}

// The letter of a hexadecimal digit.
fn letter(n: u8) -> u8
    requires { n < 16 }
    ensures { result ≡ letter_of n }
{
    if n < 10 { b'0' + n } else { b'a' + (n - 10) }
}

// The bytes in lower-case hexadecimal.
pub fn put_hex(out: &mut [u8], at: usize, bytes: &[u8]) -> usize
    ensures { Written out.old at (hex_text bytes.now) out.new result }
{
    let mut place = at;
    for b in bytes {
        let p = output::put_byte(out, place, letter(*b / 16));
        place = output::put_byte(out, p, letter(*b % 16));
    }
    place
}

// What a hexadecimal digit is worth; 0 for any other byte.
pub fn hex_of(b: u8) -> u8
    ensures { (result ≡ hex_of b) × (result < 16) }
{
    match b {
        b'0'..=b'9' => b - 48,
        b'A'..=b'F' => b - 55,
        b'a'..=b'f' => b - 87,
        _ => 0,
    }
}

// The bytes that hexadecimal digits spell, two to a byte, from the row's start on; a last digit by itself is left out.
pub fn decode(out: &mut [u8], hex: &[u8]) -> usize
    ensures { Written out.old 0 (hex_bytes hex.now) out.new result }
{
    let mut place = 0;
    for i in 0..hex.len() / 2 {
        let h = hex_of(hex[2 * i]);
        let l = hex_of(hex[2 * i + 1]);
        place = output::put_byte(out, place, 16 * h + l);
    }
    place
}
