// A log that comes in windows: parts of it, one behind the other. A place of a window is decided as soon as no byte to come can
// change what is read there.

ghost use Rattle.std.specs.Prelude.{◌≡◌, ◌+◌, ◌<◌, ◌≤◌, length};
ghost use Rattle.rules.specs.Search.{every};
ghost use Rattle.notice_fields.specs.Fields.{rows, longest_notice};
ghost use Rattle.notice_bytes.specs.Window.{can_be, head_begins, row_begins, is_beginning, is_decided};

use notice_fields::fields::{HEAD, KIND, ROWS, carried, entry, start};

// Whether a byte can stand so far behind a place: it does, or is not there yet.
fn can_be(bytes: &[u8], place: usize, far: usize, byte: u8) -> bool
    requires { place ≤ length bytes.now }
    ensures { result ≡ can_be bytes.now (place + far) byte }
{
    let left = bytes.len() - place;
    left <= far || bytes[place + far] == byte
}

// Whether the row's tag and length stand so far behind a place, as far as they are there. The first byte of a length is 0: no
// value has so many bytes.
fn head_begins(bytes: &[u8], place: usize, far: usize, row: usize) -> bool
    requires { (row < rows) × ((place ≤ length bytes.now) × (far ≤ longest_notice)) }
    ensures { result ≡ head_begins bytes.now (place + far) row }
{
    let f = entry(row);
    let size = f.size as u8;
    let tag_can = can_be(bytes, place, far, f.tag);
    let zero_can = can_be(bytes, place, far + 1, 0);
    let size_can = can_be(bytes, place, far + 2, size);
    tag_can & zero_can & size_can
}

// The same for a row that the kind may not carry, where it stands in a notice.
fn row_begins(bytes: &[u8], place: usize, kind: u8, row: usize) -> bool
    requires { (row < rows) × (place ≤ length bytes.now) }
    ensures { result ≡ row_begins bytes.now place kind row }
{
    if carried(kind, row) {
        head_begins(bytes, place, start(kind, row), row)
    } else {
        true
    }
}

// The same for all rows.
fn rows_begin(bytes: &[u8], place: usize, kind: u8) -> bool
    requires { place ≤ length bytes.now }
    ensures { result ≡ every (row_begins bytes.now place kind) rows }
{
    for i in 0..ROWS {
        if !row_begins(bytes, place, kind, i) {
            return false;
        }
    }
    true
}

// Whether the bytes from a place on are the beginning of a notice that is not all there.
fn beginning(bytes: &[u8], place: usize) -> bool
    ensures { result ≡ is_beginning bytes.now place }
{
    if bytes.len() <= place {
        return true;
    }
    let left = bytes.len() - place;
    if left <= HEAD {
        return head_begins(bytes, place, 0, KIND);
    }
    let kind = bytes[place + HEAD];
    if carried(kind, KIND) {
        if left < start(kind, ROWS) {
            return rows_begin(bytes, place, kind);
        }
    }
    false
}

// Whether a place is decided: no byte will follow, or what is there is no mere beginning of a notice.
pub fn decided(bytes: &[u8], place: usize, over: bool) -> bool
    ensures { result ≡ is_decided bytes.now place over }
{
    over || !beginning(bytes, place)
}
