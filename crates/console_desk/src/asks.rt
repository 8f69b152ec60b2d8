// The questions of the console, which change nothing: each is answered on a page by its own room, and what to type next
// stands behind a refusal. `ask` is for the desk, which has read the line.

ghost use Rattle.std.specs.Prelude.{◌≡◌, ◌≤◌, length};
ghost use Rattle.text.specs.Pages.{Puts};
ghost use Rattle.console_lines.specs.Lines.{longest};
ghost use Rattle.console_desk.specs.Asks.{box_ask_text, ask_text};

use crate::telling::tell;
use crate::viewing::{asks_view, view};
use console_boxes::{lanes, plan};
use console_commands::commands;
use console_lines::lines::Line;
use console_pools::{moves, shares, titles};
use story::State;
use text::page::Page;

// A question of the small box or of a box's plan, or one of those behind it.
fn ask_box(page: &mut Page<'_>, state: State, line: Line, s: &[u8])
    requires { length s.now ≤ longest }
    ensures { Puts page.old (box_ask_text state line s.now) page.new }
{
    let command = line.command;
    let n = line.numbers;
    if command == commands::ROM_LANE {
        lanes::put_rom_lane(page, state, n[0], n[1], n[2]);
    } else if commands::asks_plan(command) {
        plan::put_plan(page, line);
    } else if asks_view(command) {
        view(page, state, line);
    } else {
        tell(page, line, s);
    }
}

// A question of a lane or a pool by numbers alone, or one of those behind it.
pub fn ask(page: &mut Page<'_>, state: State, line: Line, s: &[u8])
    requires { length s.now ≤ longest }
    ensures { Puts page.old (ask_text state line s.now) page.new }
{
    let command = line.command;
    let n = line.numbers;
    if command == commands::LANE {
        lanes::put_lane(page, state, n[0], n[1], n[2]);
    } else if command == commands::STATUS {
        titles::put_status(page, state, n, line.count);
    } else if command == commands::SHARE {
        shares::put_share(page, n, line.count);
    } else if command == commands::PLANNER {
        moves::put_planner(page, state, n, line.count);
    } else {
        ask_box(page, state, line, s);
    }
}
