// From a notice to the values of its fields, in the table's order.

ghost use Rattle.std.specs.Prelude.{◌≡◌};
ghost use Rattle.notice.specs.Encode.{values_in};

use super::{CHANGE, CLOSE, HOLD, Kind, LIFT, Notice, OPEN, SKIP};
use notice_fields::fields::ROWS;

// What goes into each row of the table, 0 where the kind has no such field.
pub fn values(n: Notice) -> [u64; ROWS]
    ensures { result ≡ values_in n }
{
    let sequence = n.sequence as u64;
    let title = n.title as u64;
    let time = n.time;
    let kind = n.kind;
    match kind {
        Kind::Open {
            length,
            floor,
            cap,
            count,
        } => [
            OPEN as u64,
            sequence,
            title,
            time,
            length as u64,
            floor as u64,
            cap as u64,
            count as u64,
        ],
        Kind::Change { count } => [CHANGE as u64, sequence, title, time, 0, 0, 0, count as u64],
        Kind::Close => [CLOSE as u64, sequence, title, time, 0, 0, 0, 0],
        Kind::Hold => [HOLD as u64, sequence, title, time, 0, 0, 0, 0],
        Kind::Lift => [LIFT as u64, sequence, title, time, 0, 0, 0, 0],
        Kind::Skip { length, count } => [
            SKIP as u64,
            sequence,
            title,
            time,
            length as u64,
            0,
            0,
            count as u64,
        ],
    }
}
