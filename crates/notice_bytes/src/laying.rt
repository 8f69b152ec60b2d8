// A notice's fields, laid into a room.

ghost use Rattle.std.specs.Prelude.{◌≡◌, ◌+◌, ◌<◌, ◌≤◌, length};
ghost use Rattle.std.proofs.lemmas.List.Edits.{sets};
ghost use Rattle.notice_fields.specs.Fields.{rows, span_of, size_of, length_of};
ghost use Rattle.notice_bytes.specs.Laying.{field_bytes, row_bytes, bytes_to};

use notice_fields::fields::{HEAD, ROWS, carried, entry, span};
use notice_fields::numbers::put;

// A row's tag, its length and its value, from at on.
fn put_field(room: &mut [u8], at: usize, row: usize, v: u64)
    requires { (row < rows) × (at + (3 + size_of row) ≤ length room.old) }
    ensures { room.new ≡ sets room.old at (field_bytes row v) }
{
    let f = entry(row);
    let size = f.size;
    room[at] = f.tag;
    put(room, at + 1, 2, size as u64);
    put(room, at + HEAD, size, v);
}

// The same for a row that the kind may not carry.
fn put_row(room: &mut [u8], at: usize, kind: u8, row: usize, v: u64)
    requires { (row < rows) × (at + span_of kind row ≤ length room.old) }
    ensures { room.new ≡ sets room.old at (row_bytes kind row v) }
{
    if carried(kind, row) {
        put_field(room, at, row, v);
    }
}

// Every field of a notice, from the room's start on.
pub fn put_rows(room: &mut [u8], kind: u8, values: [u64; ROWS])
    requires { length_of kind ≤ length room.old }
    ensures { room.new ≡ sets room.old 0 (bytes_to kind values rows) }
{
    let mut at: usize = 0;
    for i in 0..ROWS {
        put_row(room, at, kind, i, values[i]);
        at += span(kind, i);
    }
}
