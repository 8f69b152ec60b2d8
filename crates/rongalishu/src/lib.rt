// The library that head-ends and boxes link: every public call over lent rows. `rongalishu_c` exports each to C, and include/rongalishu.h has
// them for C and C++, with an inline call beside each that passes the lengths. No function has a `requires`, allocates, blocks or
// keeps anything between calls; a refused call changes no number in anything lent.
#![tactic(auto)]

use agent_rows::ROW_LENGTH;

pub mod boxes;
pub mod events;
pub mod lanes;
pub mod notices;
pub mod pools;
pub mod reports;
mod results;
pub mod saving;

// How many numbers an agent's row has.
pub const AGENT_NUMBERS: usize = ROW_LENGTH;

// How many bytes a snapshot has.
pub const SNAPSHOT_BYTES: usize = snapshots::BYTES;
