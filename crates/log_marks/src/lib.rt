// What a log of notices leaves in a picture, notice by notice as a fresh agent takes them, and what is left to draw at its end. These
// functions are for the crate above, and say in a `requires` what they build on.
#![tactic(auto)]

pub mod ending;
pub mod hearing;
pub mod playing;
