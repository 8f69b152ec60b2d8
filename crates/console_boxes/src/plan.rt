// The plan that a line asks for, written.

ghost use Rattle.std.specs.Prelude.{◌≡◌, ◌<◌, ◌≤◌, length};
ghost use Rattle.text.specs.Pages.{Puts};
ghost use Rattle.console_commands.specs.Commands.{places_most};
ghost use Rattle.console_limits.specs.Asked.{limit_reason};
ghost use Rattle.console_lines.specs.Lines.{numbers_most};
ghost use Rattle.console_boxes.specs.Plan.{
  is_other_plan,
  plan_reason,
  plan_said,
  plan_numbers,
  plan_in,
  place_of,
  places_in,
  zeros,
};

use crate::calls;
use crate::cells::put_cells;
use crate::small::put_small;
use console_answers::outcomes;
use console_commands::commands;
use console_commands::commands::PLACES_MOST;
use console_limits::asked::put_limits;
use console_lines::lines::Line;
use rom_table::is_other;
use rules::OUTSIDE_LIMITS;
use text::page::Page;

// Where the places stand in a line that asks for a plan: behind the four numbers of a title and a box, or behind count and
// arrival.
const PLAN_PLACE: usize = 4;

const SKIP_PLAN_PLACE: usize = 2;

fn place_of(command: u8) -> usize
    ensures { (result ≡ place_of command) × (result < numbers_most) }
{
    if command == commands::SKIP_PLAN {
        return SKIP_PLAN_PLACE;
    }
    PLAN_PLACE
}

// How many places a plan is lent, up to the most, which it is where the line leaves them out.
#[tactic(auto, unfolding(crate::specs::Plan::places_in))]
fn places_of(line: Line) -> usize
    ensures { (result ≡ places_in line) × (result ≤ places_most) }
{
    let place = place_of(line.command);
    if place < line.count {
        return line.numbers[place].min(PLACES_MOST as u64) as usize;
    }
    PLACES_MOST
}

// The row that a line lends.
fn blank_row() -> [u16; PLACES_MOST]
    ensures { (result ≡ zeros places_most) × (length result ≡ places_most) }
{
    [0; PLACES_MOST]
}

// Whether the small box was asked for another floor or cap.
fn is_other_plan(answer: u8, line: Line) -> bool
    ensures { result ≡ is_other_plan answer line }
{
    let n = line.numbers;
    answer == OUTSIDE_LIMITS && line.command == commands::ROM_PLAN && is_other(n[0], n[1])
}

// Which number of the title or of the box is out of its limits.
fn put_plan_limits(page: &mut Page<'_>, answer: u8, line: Line)
    ensures { Puts page.old (limit_reason answer line.command (plan_numbers line))
        page.new }
{
    let command = line.command;
    let n = line.numbers;
    if command == commands::SKIP_PLAN {
        let numbers = [n[0], n[1]];
        put_limits(page, answer, command, &numbers);
    } else {
        let numbers = [n[0], n[1], n[2], n[3]];
        put_limits(page, answer, command, &numbers);
    }
}

// What stands behind a refusal.
fn put_plan_reason(page: &mut Page<'_>, answer: u8, line: Line)
    ensures { Puts page.old (plan_reason answer line) page.new }
{
    if is_other_plan(answer, line) {
        put_small(page);
    } else {
        put_plan_limits(page, answer, line);
    }
}

// Over a row that is lent: the answer, and behind it the cells, or why it is refused.
fn put_row(page: &mut Page<'_>, line: Line, row: &mut [u16])
    ensures { Puts page.old (plan_said line row.old) page.new }
{
    let told = calls::fill(line, row);
    let answer = told.answer;
    outcomes::put_done(page, answer, told.named);
    put_cells(page, row, told.cells);
    put_plan_reason(page, answer, line);
}

pub fn put_plan(page: &mut Page<'_>, line: Line)
    ensures { Puts page.old (plan_in line) page.new }
{
    let n = places_of(line);
    let mut row = blank_row();
    put_row(page, line, &mut row[..n]);
}
