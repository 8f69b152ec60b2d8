// Which cell goes out on a lane, by the rule and by the small box's table, and how many lanes are held.

ghost use Rattle.row_calls.specs.Answers.{row_lane, row_shows, row_held, row_lanes};
ghost use Rattle.row_questions.specs.Questions.{row_rom_lane, row_rom_shows};
ghost use Rattle.rongalishu.specs.Results.{OneGiven};

use crate::results::give;
use rules::WRONG_ROWS;

// The cell that goes out on a lane of a title in the tick that holds a time, into the first place of a row.
pub fn rl_lane_row(agent: &[u64], id: u64, lane: u64, time: u64, cell: &mut [u64]) -> u8
    ensures { OneGiven cell.old (row_lane agent.now id lane time) (row_shows agent.now id lane time)
        result cell.new }
{
    if cell.len() < 1 {
        return WRONG_ROWS;
    }
    let told = row_calls::lanes::lane(agent, id, lane, time);
    give(told.answer, &[told.cell], cell)
}

// The same looked up in a lent table of the small box.
pub fn rl_rom_lane_row(
    agent: &[u64],
    table: &[u16],
    id: u64,
    lane: u64,
    time: u64,
    cell: &mut [u64],
) -> u8
    ensures { OneGiven cell.old (row_rom_lane agent.now table.now id lane time)
        (row_rom_shows agent.now table.now id lane time) result cell.new }
{
    if cell.len() < 1 {
        return WRONG_ROWS;
    }
    let told = row_questions::small::rom_lane(agent, table, id, lane, time);
    give(told.answer, &[told.cell], cell)
}

// How many lanes are held over all titles at a time, into the first place of a row.
pub fn rl_held_row(agent: &[u64], time: u64, lanes: &mut [u64]) -> u8
    ensures { OneGiven lanes.old (row_held agent.now time) (row_lanes agent.now time) result
        lanes.new }
{
    if lanes.len() < 1 {
        return WRONG_ROWS;
    }
    let told = row_calls::lanes::held(agent, time);
    give(told.answer, &[told.lanes], lanes)
}
