// Help, draw, and what concerns notices alone.

ghost use Rattle.std.specs.Prelude.{◌≡◌, ◌≤◌, length};
ghost use Rattle.text.specs.Pages.{Puts};
ghost use Rattle.console_lines.specs.Lines.{longest};
ghost use Rattle.console_desk.specs.Asks.{tell_text};

use console_acts::writing::notice_of;
use console_answers::faults;
use console_commands::commands;
use console_lines::lines::Line;
use console_notices::{hex, reading, writing};
use text::page::Page;

pub fn tell(page: &mut Page<'_>, line: Line, s: &[u8])
    requires { length s.now ≤ longest }
    ensures { Puts page.old (tell_text line s.now) page.new }
{
    let command = line.command;
    let n = line.numbers;
    if command == commands::HELP {
        faults::put_help(page);
    } else if command == commands::DRAW {
        page.put(b"0");
    } else if command == commands::READ {
        reading::put_reading(page, hex::reading(s, n[0], n[1]));
    } else {
        writing::put_bytes(page, notice_of(line));
    }
}
