// What a dropped lane owes, by stretches or tick by tick, and what follows from it: the cell that a lane shows, and the title that a change
// or a close leaves. The functions require a title whose numbers are within their limits, which `limits::state_ok` gives.
#![tactic(auto)]

pub mod dropping;
pub mod owing;
pub mod sending;
pub mod turning;
