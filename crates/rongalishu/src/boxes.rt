// What a box asks before it begins: the plan of a start, by the rule and by the small box's table, which is filled here.

ghost use Rattle.plans.specs.Row.{Planned, SkipPlanned};
ghost use Rattle.rom_table.specs.Table.{Filled};
ghost use Rattle.rom.specs.Plan.{TablePlanned};

// The plan of a start of a padded title, into the first 2^cap places of a row.
pub fn rl_plan_row(floor: u64, cap: u64, count: u64, arrival: u64, row: &mut [u16]) -> u8
    ensures { Planned floor cap count arrival row.old result row.new }
{
    plans::plan(floor, cap, count, arrival, row)
}

// Fills a row with the small box's table.
pub fn rl_rom_fill_row(table: &mut [u16]) -> u8
    ensures { Filled table.old result table.new }
{
    rom_table::fill(table)
}

// The plan of a start of a padded title, looked up in a lent table.
pub fn rl_rom_plan_row(
    table: &[u16],
    floor: u64,
    cap: u64,
    count: u64,
    arrival: u64,
    row: &mut [u16],
) -> u8
    ensures { TablePlanned table.now floor cap count arrival row.old result row.new }
{
    rom::plan::plan(table, floor, cap, count, arrival, row)
}

// The plan of a start of a skip-forward title, into the first 2^(count - 1) places of a row.
pub fn rl_skip_plan_row(count: u64, arrival: u64, row: &mut [u16]) -> u8
    ensures { SkipPlanned count arrival row.old result row.new }
{
    plans::skip_plan(count, arrival, row)
}
