// A snapshot: an agent's row of numbers as bytes, so that it can be stored. Each number is eight bytes, big-endian, and behind them all
// stands their checksum. The crate knows a row by its length and its first number, the layout's version; whether the other numbers are
// within their limits is for the crate above to test, which loads into a row of its own first.
// No public function has a `requires`, and a refusal writes nothing.
#![tactic(auto)]

ghost use Rattle.std.specs.Prelude.{◌≡◌, ◌*◌, ◌≤◌, length};
ghost use Rattle.std.proofs.lemmas.List.Edits.{sets};
ghost use Rattle.snapshots.specs.Bytes.{number_bytes, numbers_in, is_snapshot};
ghost use Rattle.snapshots.specs.Calls.{Saves, Loads};

use notice_fields::numbers::{get, put};
use rules::{DONE, MALFORMED, WRONG_ROWS};
use sums::sum;

// The numbers of an agent's row: version, sequence, pool and last, and 47 for each of 16 titles.
pub const NUMBERS: usize = 4 + 16 * 47;

// The version of the row's layout, its first number.
pub const VERSION: u64 = 1;

// The bytes of a number, of the checksum, and of all that it sums.
const NUMBER: usize = 8;

const SUM: usize = sums::SIZE;

const SUMMED: usize = NUMBERS * NUMBER;

// The bytes of a snapshot.
pub const BYTES: usize = SUMMED + SUM;

// Each number of a row as bytes, from the room's start on.
fn lay(row: &[u64], room: &mut [u8])
    requires { 8 * length row.now ≤ length room.old }
    ensures { room.new ≡ sets room.old 0 (number_bytes row.now) }
{
    for (i, number) in row.iter().enumerate() {
        put(room, i * NUMBER, NUMBER, *number);
    }
}

// Writes the snapshot of a row at the start of the room: 0, and later bytes stay. 10 where the row has another length than an agent's,
// or the room is shorter than a snapshot.
pub fn save(row: &[u64], room: &mut [u8]) -> u8
    ensures { Saves row.now room.old result room.new }
{
    if row.len() != NUMBERS {
        return WRONG_ROWS;
    }
    if room.len() < BYTES {
        return WRONG_ROWS;
    }
    lay(row, room);
    let total = sum(&room[..SUMMED]);
    put(room, SUMMED, SUM, total as u64);
    DONE
}

// Whether bytes are a snapshot: no byte more or less, with their sum, and of this version.
pub fn fits(bytes: &[u8]) -> bool
    ensures { result ≡ is_snapshot bytes.now }
{
    if bytes.len() != BYTES {
        return false;
    }
    let total = sum(&bytes[..SUMMED]);
    if get(bytes, SUMMED, SUM) == total as u64 {
        return get(bytes, 0, NUMBER) == VERSION;
    }
    false
}

// The numbers that bytes spell, as many as the row has places.
fn fill(bytes: &[u8], row: &mut [u64])
    requires { 8 * length row.old ≤ length bytes.now }
    ensures { row.new ≡ numbers_in bytes.now (length row.old) }
{
    for (i, number) in row.iter_mut().enumerate() {
        *number = get(bytes, i * NUMBER, NUMBER);
    }
}

// Reads a snapshot into a row: 0. 10 where the row has another length than an agent's, before all else; 11 where the bytes are no
// snapshot.
pub fn load(bytes: &[u8], row: &mut [u64]) -> u8
    ensures { Loads bytes.now row.old result row.new }
{
    if row.len() != NUMBERS {
        return WRONG_ROWS;
    }
    if fits(bytes) {
        fill(bytes, row);
        return DONE;
    }
    MALFORMED
}
