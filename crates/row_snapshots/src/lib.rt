// An agent that a caller lends as a row of numbers, saved as a snapshot's bytes and loaded from them. A row that is saved or loaded is
// sound and its state within its limits; a snapshot is loaded into a row of the call's own, and copied once it was tested.
// No public call has a `requires`, and a refusal writes nothing.
#![tactic(auto)]

ghost use Rattle.row_snapshots.specs.Calls.{RowSaves, RowLoads};

use agent_rows::ROW_LENGTH;
use agent_rows::testing::row_ok;
use rules::{DONE, MALFORMED, OUTSIDE_LIMITS, WRONG_ROWS};
use snapshots::BYTES;

// Writes the snapshot of a row at the start of the room: 0, and later bytes stay. 10 where the row has another length than an agent's,
// or the room is shorter than a snapshot, before all else; 1 where the row is not sound or its state is out of limits.
pub fn save(row: &[u64], room: &mut [u8]) -> u8
    ensures { RowSaves row.now room.old result room.new }
{
    if row.len() != ROW_LENGTH || room.len() < BYTES {
        return WRONG_ROWS;
    }
    if row_ok(row) {
        return snapshots::save(row, room);
    }
    OUTSIDE_LIMITS
}

// Reads a snapshot into a row: 0. 10 where the row has another length than an agent's, before all else; 11 where the bytes are no
// snapshot; 1 where the row that they load as is not sound or its state is out of limits.
pub fn load(row: &mut [u64], bytes: &[u8]) -> u8
    ensures { RowLoads row.old bytes.now result row.new }
{
    if row.len() != ROW_LENGTH {
        return WRONG_ROWS;
    }
    let mut loaded = [0; ROW_LENGTH];
    if snapshots::load(bytes, &mut loaded) != DONE {
        return MALFORMED;
    }
    if row_ok(&loaded) {
        row.copy_from_slice(&loaded);
        return DONE;
    }
    OUTSIDE_LIMITS
}
