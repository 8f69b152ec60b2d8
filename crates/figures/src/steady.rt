// Blocks of a skip-forward title, counted from 1 as in source 002, chapter 3.

ghost use Rattle.std.specs.Prelude.{◌<◌, ◌≤◌};
ghost use Rattle.rules.specs.Limits.{asked_max};
ghost use Rattle.grid.specs.Bounds.{FloorCap};
ghost use Rattle.plans.specs.Forward.{skip_at};
ghost use Rattle.figures.specs.Rows.{RowOf};
ghost use Rattle.figures.specs.Steady.{block_on};

// The slots of figures 3.5b and 3.14b.
pub const SLOTS: usize = 16;

// The blocks that a lane of a title with `count` lanes carries in these slots.
pub fn on_lane(count: u64, lane: u64) -> [u64; SLOTS]
    requires floor_cap { FloorCap count count }
    requires lane_lt_count { lane < count }
    ensures { RowOf (block_on lane) 16 result }
{
    let mut row = [0u64; SLOTS];
    for (i, block) in row.iter_mut().enumerate() {
        *block = scheme::lane_cell(scheme::STEADY, count, count, lane, i as u64) + 1;
    }
    row
}

// The slots after its start, from 0, in which a box of a title with 4 lanes takes blocks 1 to 8.
pub fn taken_from(start: u64) -> [u64; 8]
    requires { start ≤ asked_max }
    ensures { RowOf (skip_at 4 start) 8 result }
{
    let mut plan = [0u16; 8];
    plans::skip_plan(4, start, &mut plan);
    let mut row = [0u64; 8];
    for (i, slot) in plan.iter().enumerate() {
        row[i] = u64::from(*slot);
    }
    row
}
