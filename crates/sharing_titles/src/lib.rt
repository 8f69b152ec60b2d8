// The titles among which lanes are shared (01, "Sharing"), and what one lane more is worth to a title (the sum by 02, request 2).
// Functions for the crates above: `sharing` is what customers call.
#![tactic(auto)]

pub mod term;
pub mod titles;
