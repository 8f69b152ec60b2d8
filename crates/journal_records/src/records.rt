// Records: which bytes are one, what it says, and how one is laid.

ghost use Rattle.std.specs.Prelude.{◌≡◌, ◌+◌, ◌<◌, ◌≤◌, ◌^◌, eqb, leb, length, take, drop, ◌++◌};
ghost use Rattle.std.proofs.lemmas.List.Edits.{sets};
ghost use Rattle.sums.specs.Crc.{sum_of};
ghost use Rattle.notice_fields.specs.Numbers.{number_at};
ghost use Rattle.journal_records.specs.Records.{payload_size, payload_max, is_headed, body_of, verifies_at, found_at};
ghost use Rattle.journal_records.specs.Laying.{LaysRecord};

use notice_fields::numbers::{get, put};
use rules::within;
use sums::sum_joined;

// The bytes of a record's number, of its kind and of its payload's length, of all three, and with the sum of the shortest record.
const NUMBER: usize = 8;

const KIND: usize = 1;

const LENGTH: usize = 2;

pub const HEAD: usize = NUMBER + KIND + LENGTH;

pub const LEAST: usize = HEAD + SUM;

const SUM: usize = sums::SIZE;

// The longest payload, and the longest record.
pub const PAYLOAD_MAX: usize = 65_535;

pub const LONGEST: usize = LEAST + PAYLOAD_MAX;

// No journal has more records: the number fits six bytes, so that a search through garbage rarely sums.
pub const RECORDS_MAX: u64 = 281_474_976_710_655;

// The kind of a notice.
pub const NOTICE: u8 = 1;

// A record that stands at a place: its number, its kind, and the bytes of its payload.
#[derive(Clone, Copy)]
pub struct Record {
    pub number: u64,
    pub kind: u8,
    pub size: usize,
}

// Whether so many bytes from a place on are there.
fn has_room(length: usize, at: usize, size: usize) -> bool
    ensures { result ≡ leb (at + size) length }
{
    if length < size {
        return false;
    }
    at <= length - size
}

// Whether number and kind are those of a record.
#[tactic(auto, unfolding(crate::specs::Records::is_headed))]
fn is_headed(bytes: &[u8], at: usize) -> bool
    requires { at + 11 ≤ length bytes.now }
    ensures { result ≡ is_headed bytes.now at }
{
    let number = get(bytes, at, NUMBER);
    let kind = get(bytes, at + NUMBER, KIND);
    within(1, RECORDS_MAX, number) && 1 <= kind
}

// The length of the payload.
fn size_at(bytes: &[u8], at: usize) -> usize
    requires { at + 11 ≤ length bytes.now }
    ensures { (result ≡ payload_size bytes.now at) × (result ≤ payload_max) }
{
    get(bytes, at + NUMBER + KIND, LENGTH) as usize
}

// Whether behind so many bytes stands their sum.
fn has_sum(identity: &[u8], bytes: &[u8], at: usize, size: usize) -> bool
    requires { at + (size + 4) ≤ length bytes.now }
    ensures { result ≡ eqb (number_at bytes.now (at + size) 4) (sum_of (identity.now ++ take size (drop at bytes.now))) }
{
    let end = at + size;
    let total = sum_joined(identity, &bytes[at..end]);
    get(bytes, end, SUM) == total as u64
}

// Whether a record of the journal with this identity stands at a place.
pub fn verifies(identity: &[u8], bytes: &[u8], at: usize) -> bool
    ensures { result ≡ verifies_at identity.now bytes.now at }
{
    if has_room(bytes.len(), at, LEAST) {
        if is_headed(bytes, at) {
            let size = size_at(bytes, at);
            if has_room(bytes.len(), at, LEAST + size) {
                return has_sum(identity, bytes, at, HEAD + size);
            }
        }
    }
    false
}

// The record that stands at a place, if one does; its payload begins behind its head.
pub fn record_at(identity: &[u8], bytes: &[u8], at: usize) -> Option<Record>
    ensures { result ≡ found_at identity.now bytes.now at }
{
    if !verifies(identity, bytes, at) {
        return None;
    }
    let number = get(bytes, at, NUMBER);
    let kind = get(bytes, at + NUMBER, KIND) as u8;
    let size = size_at(bytes, at);
    Some(Record { number, kind, size })
}

// Bytes laid from a place on.
pub(crate) fn lay(bytes: &[u8], room: &mut [u8], at: usize)
    requires { at + length bytes.now ≤ length room.old }
    ensures { room.new ≡ sets room.old at bytes.now }
{
    room[at..at + bytes.len()].copy_from_slice(bytes);
}

// All of a record but its sum.
fn put_body(number: u64, kind: u8, payload: &[u8], room: &mut [u8], at: usize)
    requires { at + (11 + length payload.now) ≤ length room.old }
    ensures { room.new ≡ sets room.old at (body_of number kind payload.now) }
{
    put(room, at, NUMBER, number);
    put(room, at + NUMBER, KIND, kind as u64);
    put(room, at + NUMBER + KIND, LENGTH, payload.len() as u64);
    lay(payload, room, at + HEAD);
}

// Lays a record from a place of the room on, and answers the place behind it; where the payload is too long or the room too short, nothing is
// written and the place comes back.
// kept: the place that comes back where nothing is written is what `LaysRecord` promises
pub fn put_record(
    identity: &[u8],
    number: u64,
    kind: u8,
    payload: &[u8],
    room: &mut [u8],
    at: usize,
) -> usize
    ensures { LaysRecord identity.now number kind payload.now room.old at result room.new }
{
    let size = payload.len();
    if PAYLOAD_MAX < size {
        return at;
    }
    if has_room(room.len(), at, LEAST + size) {
        put_body(number, kind, payload, room, at);
        let end = at + HEAD + size;
        let total = sum_joined(identity, &room[at..end]);
        put(room, end, SUM, total as u64);
        return end + SUM;
    }
    at
}
