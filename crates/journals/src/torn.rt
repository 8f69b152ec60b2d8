// The end of a journal that is no whole notice: whether it is torn, and whether only its kind was changed.

ghost use Rattle.std.specs.Prelude.{◌≡◌, ◌++◌, ◌≤◌, length, take, drop};
ghost use Rattle.journals.specs.Torn.{kind_begun, is_torn, is_kind, had_kind};

use notice_bytes::laying::put_rows;
use notice_bytes::standing::alone;
use notice_fields::fields::{HEAD, LONGEST, ROWS, start};
use sums::sum;

// The kinds of notices: 0 up to the last.
const KINDS: u8 = notice::SKIP + 1;

// The kind of the notice that bytes begin. Up to the kind's own byte notices of every kind begin alike.
fn kind_begun(rest: &[u8]) -> u8
    ensures { result ≡ kind_begun rest.now }
{
    if HEAD < rest.len() {
        return rest[HEAD];
    }
    notice::OPEN
}

// Bytes over the start of a room.
fn lay_over(rest: &[u8], room: &mut [u8])
    requires { length rest.now ≤ length room.old }
    ensures { room.new ≡ take (length rest.now) rest.now ++ drop (length rest.now) room.old }
{
    room[..rest.len()].copy_from_slice(rest);
}

// Whether bytes are fewer than their notice has: they are laid over a blank one of their kind.
pub fn is_torn(rest: &[u8]) -> bool
    ensures { result ≡ is_torn rest.now }
{
    let kind = kind_begun(rest);
    let whole = start(kind, ROWS);
    if rest.len() < whole {
        let mut room = [0u8; LONGEST];
        put_rows(&mut room, kind, [u64::from(kind), 0, 0, 0, 0, 0, 0, 0]);
        lay_over(rest, &mut room);
        return alone(&room[..whole]);
    }
    false
}

// Whether bytes are as long as a notice of a kind, and have a sum with that kind in them.
fn is_kind(rest: &[u8], kind: u8, total: u64) -> bool
    ensures { result ≡ is_kind rest.now total kind }
{
    let size = start(kind, ROWS);
    if rest.len() == size {
        let mut room = [0u8; LONGEST];
        lay_over(rest, &mut room);
        room[HEAD] = kind;
        return u64::from(sum(&room[..size])) == total;
    }
    false
}

// The same of any kind.
pub fn had_kind(rest: &[u8], total: u64) -> bool
    ensures { result ≡ had_kind rest.now total }
{
    for kind in 0..KINDS {
        if is_kind(rest, kind, total) {
            return true;
        }
    }
    false
}
