// The marks that a log of notices leaves beside its strips: accepted notices, lives of titles, and refused notices. Up to where each row of
// the picture is drawn is kept beside the agent, as `strips` says. These functions are for the crates above, and say in a `requires` what
// they build on.
#![tactic(auto)]

pub mod lives;
pub mod notices;
pub mod refused;
pub mod ticks;
