// The bytes that a line's hexadecimal digits spell, as a notice.

ghost use Rattle.std.specs.Prelude.{◌≡◌, ◌≤◌, length, take};
ghost use Rattle.notice.specs.Decode.{read_of};
ghost use Rattle.console_lines.specs.Lines.{longest};
ghost use Rattle.console_notices.specs.Hex.{hex_between, hex_room};

use notice::Reading;
use text::digits;

// Room for the bytes that the longest line spells.
const HEX_ROOM: usize = 2048;

pub fn blank_room() -> [u8; HEX_ROOM]
    ensures { length result ≡ hex_room }
{
    [0; HEX_ROOM]
}

// Spells the digits of a line between two places into the start of a row, and gives back how many bytes they are.
pub fn spell(s: &[u8], from: u64, to: u64, room: &mut [u8]) -> usize
    requires { (length s.now ≤ longest) × (hex_room ≤ length room.old) }
    ensures { (take result room.new ≡ hex_between s.now from to) × (result ≤ length
        room.new) }
{
    let Some(digits) = s.get(from as usize..to as usize) else {
        return 0;
    };
    digits::decode(room, digits)
}

// What the digits read as.
pub fn reading(s: &[u8], from: u64, to: u64) -> Reading
    requires { length s.now ≤ longest }
    ensures { result ≡ read_of (hex_between s.now from to) }
{
    let mut room = blank_room();
    let n = spell(s, from, to, &mut room);
    notice::read(&room[..n])
}
