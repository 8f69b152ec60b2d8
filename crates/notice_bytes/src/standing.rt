// Whether a notice's fields stand in bytes, and the values that they have.

ghost use Rattle.std.specs.Prelude.{◌≡◌, true, ◌+◌, ◌<◌, ◌≤◌, ◌^◌, length};
ghost use Rattle.notice_fields.specs.Fields.{rows, span_of, size_of, length_of, is_carried};
ghost use Rattle.notice_bytes.specs.Standing.{head_stands, row_stands, stands_to, value_at, is_whole, is_alone};

use notice_fields::fields::{HEAD, KIND, ROWS, carried, entry, span, start};
use notice_fields::numbers::get;

// Whether the row's tag and length stand at a place.
fn head_stands(bytes: &[u8], at: usize, row: usize) -> bool
    requires { (row < rows) × (at + 3 ≤ length bytes.now) }
    ensures { result ≡ head_stands bytes.now at row }
{
    let f = entry(row);
    let tag = bytes[at] == f.tag;
    let size = get(bytes, at + 1, 2) == f.size as u64;
    tag && size
}

// The same for a row that the kind may not carry.
fn row_stands(bytes: &[u8], at: usize, kind: u8, row: usize) -> bool
    requires { (row < rows) × (at + span_of kind row ≤ length bytes.now) }
    ensures { result ≡ row_stands bytes.now at kind row }
{
    if carried(kind, row) {
        head_stands(bytes, at, row)
    } else {
        true
    }
}

// Whether all fields of the kind stand one after the other from a place on.
fn rows_stand(bytes: &[u8], place: usize, kind: u8) -> bool
    requires { place + length_of kind ≤ length bytes.now }
    ensures { result ≡ stands_to bytes.now place kind rows }
{
    let mut at = place;
    for i in 0..ROWS {
        if !row_stands(bytes, at, kind, i) {
            return false;
        }
        at += span(kind, i);
    }
    true
}

// Whether a whole notice stands at a place: of a known kind, with all its bytes and fields.
pub fn whole_at(bytes: &[u8], place: usize) -> bool
    ensures { result ≡ is_whole bytes.now place }
{
    if bytes.len() <= place {
        return false;
    }
    let left = bytes.len() - place;
    if left <= HEAD {
        return false;
    }
    let kind = bytes[place + HEAD];
    carried(kind, KIND) && start(kind, ROWS) <= left && rows_stand(bytes, place, kind)
}

// Whether the bytes are one whole notice and nothing after it.
pub fn alone(bytes: &[u8]) -> bool
    ensures { result ≡ is_alone bytes.now }
{
    whole_at(bytes, 0) && start(bytes[HEAD], ROWS) == bytes.len()
}

// The value of a row that the kind carries, in a notice that starts at a place.
pub fn value(bytes: &[u8], place: usize, kind: u8, row: usize) -> u64
    requires { (row < rows) × ((place + length_of kind ≤ length bytes.now) × (is_carried kind row ≡ true)) }
    ensures { (result ≡ value_at bytes.now place kind row) × (result < 256 ^ size_of row) }
{
    let f = entry(row);
    get(bytes, place + start(kind, row) + HEAD, f.size)
}
