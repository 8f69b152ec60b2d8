// The header of a journal: letters with the version, the journal's identity, the Unix time of its time 0, its pool, LEAD and LEAST, and the sum
// of all that.

ghost use Rattle.std.specs.Prelude.{◌≡◌, ◌≤◌, length};
ghost use Rattle.std.proofs.lemmas.List.Edits.{sets};
ghost use Rattle.journal_records.specs.Header.{origin_bytes, other_word, header_found};
ghost use Rattle.journal_records.specs.Laying.{LaysHeader};

use super::records::lay;
use notice_fields::numbers::{get, put};
use rules::{DONE, POOL_MAX, POOL_MIN, WRONG_ROWS, within};
use sums::sum;

// The bytes of a header, and of what its sum is of.
pub const SIZE: usize = SUMMED + SUM;

const SUMMED: usize = 60;

const SUM: usize = sums::SIZE;

// The letters RLJRNL01, the last two of which are the version.
const LETTERS: u64 = 0x524C_4A52_4E4C_3031;

const VERSIONS: u64 = 65_536;

// The bytes of the identity, and where it stands.
pub const IDENTITY: usize = 16;

pub const IDENTITY_AT: usize = WIDE;

// Where each number stands; behind the last of them are zeros.
const WIDE: usize = 8;

const ZERO_AT: usize = IDENTITY_AT + IDENTITY;

const POOL_AT: usize = ZERO_AT + WIDE;

const LEAD_AT: usize = POOL_AT + WIDE;

const LEAST_AT: usize = LEAD_AT + WIDE;

const ZEROS_AT: usize = LEAST_AT + WIDE;

// The numbers of a journal: the Unix time of its time 0, its pool, LEAD and LEAST, times in ms.
#[derive(Clone, Copy)]
pub struct Origin {
    pub zero: u64,
    pub pool: u64,
    pub lead: u64,
    pub least: u64,
}

// Why bytes are no header.
#[derive(Clone, Copy)]
pub enum HeaderFault {
    // fewer bytes than a header has
    TooShort,
    // other letters
    NotJournal,
    // of a later release
    LaterVersion,
    SumDiffers,
    // a pool outside its limits
    OutsideLimits,
}

// The numbers and the zeros behind them.
fn put_origin(origin: Origin, room: &mut [u8])
    requires { 60 ≤ length room.old }
    ensures { room.new ≡ sets room.old 24 (origin_bytes origin) }
{
    put(room, ZERO_AT, WIDE, origin.zero);
    put(room, POOL_AT, WIDE, origin.pool);
    put(room, LEAD_AT, WIDE, origin.lead);
    put(room, LEAST_AT, WIDE, origin.least);
    put(room, ZEROS_AT, SUMMED - ZEROS_AT, 0);
}

// Writes a header at the start of the room: 0, and later bytes stay. 10 where the identity has not its length, or the room is shorter than a
// header.
pub fn put_header(identity: &[u8], origin: Origin, room: &mut [u8]) -> u8
    ensures { LaysHeader identity.now origin room.old result room.new }
{
    if identity.len() != IDENTITY {
        return WRONG_ROWS;
    }
    if room.len() < SIZE {
        return WRONG_ROWS;
    }
    put(room, 0, WIDE, LETTERS);
    lay(identity, room, IDENTITY_AT);
    put_origin(origin, room);
    let total = sum(&room[..SUMMED]);
    put(room, SUMMED, SUM, total as u64);
    DONE
}

// What other letters say: a later version, or no journal.
fn other_word(word: u64) -> HeaderFault
    ensures { result ≡ other_word word }
{
    if word / VERSIONS == LETTERS / VERSIONS && LETTERS < word {
        HeaderFault::LaterVersion
    } else {
        HeaderFault::NotJournal
    }
}

// What the bytes at a journal's start read as.
pub fn read_header(bytes: &[u8]) -> Result<Origin, HeaderFault>
    ensures { result ≡ header_found bytes.now }
{
    if bytes.len() < SIZE {
        return Err(HeaderFault::TooShort);
    }
    let word = get(bytes, 0, WIDE);
    if word != LETTERS {
        return Err(other_word(word));
    }
    let total = sum(&bytes[..SUMMED]);
    if get(bytes, SUMMED, SUM) != total as u64 {
        return Err(HeaderFault::SumDiffers);
    }
    let pool = get(bytes, POOL_AT, WIDE);
    if !within(POOL_MIN, POOL_MAX, pool) {
        return Err(HeaderFault::OutsideLimits);
    }
    let zero = get(bytes, ZERO_AT, WIDE);
    let lead = get(bytes, LEAD_AT, WIDE);
    let least = get(bytes, LEAST_AT, WIDE);
    Ok(Origin {
        zero,
        pool,
        lead,
        least,
    })
}
