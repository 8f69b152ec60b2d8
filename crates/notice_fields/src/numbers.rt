// Big-endian numbers of any width up to eight bytes, in a slice.

ghost use Rattle.std.specs.Prelude.{◌≡◌, ◌+◌, ◌<◌, ◌≤◌, ◌^◌, length};
ghost use Rattle.std.proofs.lemmas.List.Edits.{sets};
ghost use Rattle.notice_fields.specs.Numbers.{number_at, big_endian};

// The bytes of the widest number, those of its half, and the first number that a half does not hold.
const WIDEST: usize = 8;

const HALF: usize = 4;

const PAST_HALF: u64 = 1 << 32;

// The number that the width bytes from at on spell, byte by byte.
fn gathered(bytes: &[u8], at: usize, width: usize) -> u64
    requires { (at + width ≤ length bytes.now) × (width ≤ 8) }
    ensures { (result ≡ number_at bytes.now at width) × (result < 256 ^ width) }
{
    let mut v: u64 = 0;
    for i in 0..width {
        let byte = u64::from(bytes[at + i]);
        v = v * 256 + byte;
    }
    v
}

// The number that the width bytes from at on spell. Eight bytes go by halves: a compiler reads each at once.
pub fn get(bytes: &[u8], at: usize, width: usize) -> u64
    requires { (at + width ≤ length bytes.now) × (width ≤ 8) }
    ensures { (result ≡ number_at bytes.now at width) × (result < 256 ^ width) }
{
    if width == WIDEST {
        let high = gathered(bytes, at, HALF);
        let low = gathered(bytes, at + HALF, HALF);
        return high * PAST_HALF + low;
    }
    gathered(bytes, at, width)
}

// The number's last width bytes, from at on. The last byte goes first: what is left is then divided, not shifted by a variable.
pub fn put(room: &mut [u8], at: usize, width: usize, v: u64)
    requires { at + width ≤ length room.old }
    ensures { room.new ≡ sets room.old at (big_endian width v) }
{
    let mut left = v;
    for i in (0..width).rev() {
        room[at + i] = (left % 256) as u8;
        left /= 256;
    }
}
