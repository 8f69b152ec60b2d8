// A register moved on by many bits at once, as if zeros went through it: a shift moves each bit of a sum of bits by itself, so where the
// highest bit comes to says where all do.

ghost use Rattle.std.specs.Prelude.{◌*◌, ◌≤◌, ◌<◌, ◌^◌, ◌≡◌, eqb};
ghost use Rattle.rules.specs.Refusals.{pick};
ghost use Rattle.sums.specs.Crc.{shifted_by};
ghost use Rattle.sums.specs.inner.Moves.{highest, moved_to};

use super::{shift, with_byte};

// The highest bit of a register, and how many there are.
const HIGHEST: u32 = 0x8000_0000;

const WIDTH: u32 = 32;

// k where the bit is set.
fn chosen(bit: u32, k: u32) -> u32
    ensures { result ≡ pick (eqb bit 1) k 0 }
{
    if bit == 1 { k } else { 0 }
}

// The register x moved on as far as the highest bit was moved to become k.
pub(crate) fn moved(x: u32, k: u32) -> u32
    ensures { (result ≡ moved_to x k 32) × (x < 2 ^ 32) }
{
    let mut r = 0;
    for i in 0..WIDTH {
        r = shift(r) ^ chosen((x >> i) % 2, k);
    }
    r
}

// How many bits a number has.
fn bits_of(n: u64) -> u64
    ensures { (n < 2 ^ result) × (result ≤ 64) }
{
    u64::from(u64::BITS - n.leading_zeros())
}

// A byte of zeros goes in, or none.
fn with_zero(r: u32, bit: u64) -> u32
    requires { bit < 2 }
    ensures { result ≡ shifted_by (8 * bit) r }
{
    if bit == 1 { with_byte(r, 0) } else { r }
}

// Where the highest bit comes to by so many bytes.
pub(crate) fn far(bytes: u64) -> u32
    ensures { result ≡ shifted_by (8 * bytes) highest }
{
    let mut k = HIGHEST;
    for left in (0..bits_of(bytes)).rev() {
        k = with_zero(moved(k, k), (bytes >> left) % 2);
    }
    k
}
