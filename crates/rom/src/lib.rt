// The small box: titles of floor 3 and cap 10 alone. Its lane question and its plan look every cell of the grid up in a table that
// a caller lends, filled once by `rom_table::fill`. The state that they read is the scheduler's: how many cells a dropped lane owes,
// and at which ticks, is counted by the code that computes the grid.
#![tactic(auto)]

pub mod lanes;
pub mod plan;
