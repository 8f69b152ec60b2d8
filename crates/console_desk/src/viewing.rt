// The questions that are answered for people.

ghost use Rattle.std.specs.Prelude.{◌≡◌};
ghost use Rattle.text.specs.Pages.{Puts};
ghost use Rattle.console_desk.specs.Asks.{asks_view, view_text};

use crate::whens::event_asked;
use console_balance::put_balance;
use console_commands::commands;
use console_lines::lines::Line;
use console_views::lanes::put_lanes;
use console_views::titles::put_titles;
use console_views::when::put_when;
use rules::within;
use story::State;
use text::page::Page;

// Whether a command asks for a view.
pub fn asks_view(command: u8) -> bool
    ensures { result ≡ asks_view command }
{
    within(
        commands::WHEN as u64,
        commands::LANES as u64,
        command as u64,
    ) || within(
        commands::WHEN_CLOSE as u64,
        commands::WHEN_LIFT as u64,
        command as u64,
    )
}

pub fn view(page: &mut Page<'_>, state: State, line: Line)
    ensures { Puts page.old (view_text state line) page.new }
{
    let command = line.command;
    let n = line.numbers;
    if command == commands::TITLES {
        put_titles(page, state, n[0]);
    } else if command == commands::LANES {
        put_lanes(page, state, n[0], n[1], n[2]);
    } else if command == commands::BALANCE {
        put_balance(page, state, n, line.count);
    } else {
        put_when(page, state, event_asked(line));
    }
}
