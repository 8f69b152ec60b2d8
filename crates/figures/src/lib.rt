// What the product computes where others published figures: slot lengths of a film of 120 minutes, what channels carry, what a
// box takes, and what dropped lanes send. A function that calls the grid asks what the grid asks; the others ask nothing.
// Papers round their times. Here a time in a unit is the nearest whole number of it, halves up, of the product's slot length,
// which is in ms and rounded up.
#![tactic(auto)]

pub mod holding;
pub mod rows;
pub mod segments;
pub mod steady;
pub mod times;
pub mod transitions;
