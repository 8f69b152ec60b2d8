// From bytes to a notice: the values of the fields that the kind carries.

ghost use Rattle.std.specs.Prelude.{◌≡◌, true, ◌+◌, ◌≤◌, length};
ghost use Rattle.notice_fields.specs.Fields.{length_of, is_known};
ghost use Rattle.notice.specs.Decode.{kind_in, notice_in};

use super::{CHANGE, CLOSE, HOLD, Kind, Notice, OPEN, SKIP};
use notice_bytes::standing::value;
use notice_fields::fields::{CAP, COUNT, FLOOR, LENGTH, SEQUENCE, TIME, TITLE};

// The kind's own data. Its number is one that the table knows.
fn kind_in(bytes: &[u8], place: usize, kind: u8) -> Kind
    requires { (place + length_of kind ≤ length bytes.now) × (is_known kind ≡ true) }
    ensures { result ≡ kind_in bytes.now place kind }
{
    if kind == OPEN {
        let length = value(bytes, place, kind, LENGTH) as u32;
        let floor = value(bytes, place, kind, FLOOR) as u8;
        let cap = value(bytes, place, kind, CAP) as u8;
        let count = value(bytes, place, kind, COUNT) as u8;
        return Kind::Open {
            length,
            floor,
            cap,
            count,
        };
    }
    if kind == CHANGE {
        let count = value(bytes, place, kind, COUNT) as u8;
        return Kind::Change { count };
    }
    if kind == SKIP {
        let length = value(bytes, place, kind, LENGTH) as u32;
        let count = value(bytes, place, kind, COUNT) as u8;
        return Kind::Skip { length, count };
    }
    if kind == CLOSE {
        return Kind::Close;
    }
    if kind == HOLD {
        return Kind::Hold;
    }
    Kind::Lift
}

// The notice whose fields stand from a place on.
pub fn notice_in(bytes: &[u8], place: usize, kind: u8) -> Notice
    requires { (place + length_of kind ≤ length bytes.now) × (is_known kind ≡ true) }
    ensures { result ≡ notice_in bytes.now place kind }
{
    let data = kind_in(bytes, place, kind);
    let sequence = value(bytes, place, CLOSE, SEQUENCE) as u32;
    let title = value(bytes, place, CLOSE, TITLE) as u8;
    let time = value(bytes, place, CLOSE, TIME);
    Notice {
        sequence,
        title,
        time,
        kind: data,
    }
}
