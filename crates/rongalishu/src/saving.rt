// Snapshots: an agent's row as bytes that can be stored, and the row that such bytes load as.

ghost use Rattle.row_snapshots.specs.Calls.{RowSaves, RowLoads};

// Writes the snapshot of an agent at the start of a room.
pub fn rl_save_row(agent: &[u64], room: &mut [u8]) -> u8
    ensures { RowSaves agent.now room.old result room.new }
{
    row_snapshots::save(agent, room)
}

// Reads a snapshot into an agent's row.
pub fn rl_load_row(agent: &mut [u64], bytes: &[u8]) -> u8
    ensures { RowLoads agent.old bytes.now result agent.new }
{
    row_snapshots::load(agent, bytes)
}
