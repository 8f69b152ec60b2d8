// The console's questions over a whole pool: the status of its titles, the sharing of its lanes, and the changes that the
// planner lists. Each call writes on a page; nothing is written past the end of its row.
#![tactic(auto)]

mod beside;
mod columns;
pub mod moves;
pub mod shares;
pub mod titles;
