// What a plan's call gives: the one of a title on the padded grid, that of the small box, and that of a skip-forward title.

ghost use Rattle.std.specs.Prelude.{◌≡◌, ◌-◌, ◌^◌, ◌≤◌, eqb, length};
ghost use Rattle.rules.specs.Limits.{count_max};
ghost use Rattle.rules.specs.Refusals.{pick, done};
ghost use Rattle.plans.specs.Padded.{plan_answer};
ghost use Rattle.plans.specs.Forward.{skip_answer};
ghost use Rattle.rom.specs.Plan.{rom_plan_answer};
ghost use Rattle.console_boxes.specs.Plan.{PlanFilled, plan_text, rom_plan_text, skip_plan_text, plan_over, answer_over};

use crate::small::table;
use console_commands::commands;
use console_lines::lines::Line;
use rules::DONE;

// The answer, the number that the words of a refusal name, and how many cells were written into the row.
#[derive(Clone, Copy)]
pub struct Told {
    pub answer: u8,
    pub named: u64,
    pub cells: usize,
}

// The 2^cap cells of a plan, none of a refusal.
fn cells_of(answer: u8, cap: u64) -> usize
    requires { answer ≡ done → cap ≤ count_max }
    ensures { result ≡ pick (eqb answer done) (2 ^ cap) 0 }
{
    if answer == DONE {
        return grid::pow2(cap) as usize;
    }
    0
}

fn padded(floor: u64, cap: u64, count: u64, arrival: u64, row: &mut [u16]) -> Told
    ensures { PlanFilled (plan_text floor cap count arrival row.old)
        (plan_answer floor cap count arrival (length row.old)) result row.new }
{
    let answer = plans::plan(floor, cap, count, arrival, row);
    let named = words::missed(answer, floor, cap);
    let cells = cells_of(answer, cap);
    Told {
        answer,
        named,
        cells,
    }
}

fn small(floor: u64, cap: u64, count: u64, arrival: u64, row: &mut [u16]) -> Told
    ensures { PlanFilled (rom_plan_text floor cap count arrival row.old)
        (rom_plan_answer floor cap count arrival (length row.old)) result row.new }
{
    let table = table();
    let answer = rom::plan::plan(&table, floor, cap, count, arrival, row);
    let named = words::missed(answer, floor, cap);
    let cells = cells_of(answer, cap);
    Told {
        answer,
        named,
        cells,
    }
}

fn one_less(count: u64) -> u64
    ensures { result ≡ count - 1 }
{
    count.saturating_sub(1)
}

// A skip-forward title of a count has 2^(count-1) blocks.
fn forward(count: u64, arrival: u64, row: &mut [u16]) -> Told
    ensures { PlanFilled (skip_plan_text count arrival row.old)
        (skip_answer count arrival (length row.old)) result row.new }
{
    let answer = plans::skip_plan(count, arrival, row);
    let cells = cells_of(answer, one_less(count));
    Told {
        answer,
        named: 0,
        cells,
    }
}

// By the line's command, into a row that is lent.
pub fn fill(line: Line, row: &mut [u16]) -> Told
    ensures { PlanFilled (plan_over line row.old) (answer_over line (length row.old)) result
        row.new }
{
    let command = line.command;
    let n = line.numbers;
    if command == commands::SKIP_PLAN {
        return forward(n[0], n[1], row);
    }
    if command == commands::ROM_PLAN {
        return small(n[0], n[1], n[2], n[3], row);
    }
    padded(n[0], n[1], n[2], n[3], row)
}
