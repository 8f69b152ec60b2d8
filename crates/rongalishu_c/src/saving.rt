// Snapshots: an agent's row as bytes that can be stored, and the row that such bytes load as.

ghost use Rattle.row_snapshots.specs.Calls.{RowSaves, RowLoads};

// Writes the snapshot of an agent at the start of a room.
#[unsafe(no_mangle)]
pub extern "C" fn rl_save_row(agent: &[u64], room: &mut [u8]) -> u8
    ensures { RowSaves agent.now room.old result room.new }
{
    rongalishu::saving::rl_save_row(agent, room)
}

// Reads a snapshot into an agent's row.
#[unsafe(no_mangle)]
pub extern "C" fn rl_load_row(agent: &mut [u64], bytes: &[u8]) -> u8
    ensures { RowLoads agent.old bytes.now result agent.new }
{
    rongalishu::saving::rl_load_row(agent, bytes)
}
