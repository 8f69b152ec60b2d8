// The checksum of stored bytes: CRC-32C. Four parts of a long row go through registers of their own, bit by bit, and a register is then
// moved on over the parts behind it. The compiler knows the loop over bits and looks each byte up in a table of its own making; a table of
// the source would be copied at each call. The calls `sum` and `sum_joined` have no `requires`.
#![tactic(auto)]

ghost use Rattle.std.specs.Prelude.{◌-◌, ◌*◌, ◌≤◌, ◌<◌, ◌^◌, ◌≡◌, ◌++◌, length, get_or};
ghost use Rattle.std.specs.Int.Bits.{bit_xor};
ghost use Rattle.sums.specs.Crc.{shifted, with_byte, sum_of};
ghost use Rattle.sums.specs.inner.Moves.{moved_to, register_from};
ghost use Rattle.sums.specs.inner.Parts.{InParts};

use moves::{far, moved};

mod moves;

// The polynomial with its bits reversed, and a register of ones.
const POLYNOMIAL: u32 = 0x82F6_3B78;

const ONES: u32 = 0xFFFF_FFFF;

// The bytes of a sum, as it is stored.
pub const SIZE: usize = 4;

// The bits of a byte.
const BITS: u32 = 8;

// From so many bytes on the parts save more time than their joining takes.
const LONG: usize = 256;

// One bit goes out; where it is set the polynomial goes in.
pub(crate) fn shift(r: u32) -> u32
    ensures { result ≡ shifted r }
{
    let half = r / 2;
    if r % 2 == 1 {
        return half ^ POLYNOMIAL;
    }
    half
}

// A byte goes in at the low end.
pub(crate) fn with_byte(r: u32, b: u32) -> u32
    ensures { result ≡ with_byte r b }
{
    let mut x = r ^ b;
    for _ in 0..BITS {
        x = shift(x);
    }
    x
}

// The byte at a place goes in.
fn next(bytes: &[u8], at: usize, r: u32) -> u32
    requires { at < length bytes.now }
    ensures { result ≡ with_byte r (get_or bytes.now at 0) }
{
    with_byte(r, u32::from(bytes[at]))
}

// The bytes from a place to the end go in.
fn rest(bytes: &[u8], from: usize, r: u32) -> u32
    requires { from ≤ length bytes.now }
    ensures { result ≡ register_from bytes.now from r (length bytes.now - from) }
{
    let mut x = r;
    for at in from..bytes.len() {
        x = next(bytes, at, x);
    }
    x
}

// The registers of four parts of a row, each as if it stood alone.
#[derive(Clone, Copy)]
struct Registers(u32, u32, u32, u32);

// The four parts of so many bytes each, a byte of each at a time: none waits for another.
fn parts(bytes: &[u8], many: usize) -> Registers
    requires { 4 * many ≤ length bytes.now }
    ensures { InParts bytes.now many result }
{
    let mut a = ONES;
    let mut b = 0;
    let mut c = 0;
    let mut d = 0;
    for i in 0..many {
        a = next(bytes, i, a);
        b = next(bytes, many + i, b);
        c = next(bytes, 2 * many + i, c);
        d = next(bytes, 3 * many + i, d);
    }
    Registers(a, b, c, d)
}

// The register of two parts, one behind the other; k is where the highest bit comes to by the second's bytes.
fn behind(first: u32, second: u32, k: u32) -> u32
    ensures { (result ≡ bit_xor (moved_to first k 32) second) × (first < 2 ^ 32) }
{
    moved(first, k) ^ second
}

// The sum of a row of bytes.
pub fn sum(bytes: &[u8]) -> u32
    ensures { result ≡ sum_of bytes.now }
{
    if bytes.len() < LONG {
        return rest(bytes, 0, ONES) ^ ONES;
    }
    let many = bytes.len() / 4;
    let p = parts(bytes, many);
    let k = far(many as u64);
    let two = behind(p.0, p.1, k);
    let three = behind(two, p.2, k);
    let four = behind(three, p.3, k);
    rest(bytes, 4 * many, four) ^ ONES
}

// The sum of two rows of bytes, as if the second stood behind the first.
pub fn sum_joined(first: &[u8], second: &[u8]) -> u32
    ensures { result ≡ sum_of (first.now ++ second.now) }
{
    rest(second, 0, rest(first, 0, ONES)) ^ ONES
}
