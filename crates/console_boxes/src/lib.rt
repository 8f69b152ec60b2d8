// What a box asks, as the console answers it: the cell that a lane shows, and a plan, of the computing box, of the small
// box and of a skip-forward title's box. Each call writes on a page; nothing is written past its row's end.
#![tactic(auto)]

mod calls;
mod cells;
pub mod lanes;
pub mod plan;
mod small;
