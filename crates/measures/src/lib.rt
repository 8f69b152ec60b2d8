// What is read off a state with no search: at which tick of a title a time lies, and how many lanes are held. The functions require
// of a title that is there a film within its limits, which `limits::state_ok` gives.
#![tactic(auto)]

pub mod lanes;
pub mod slots;
pub mod ticks;
