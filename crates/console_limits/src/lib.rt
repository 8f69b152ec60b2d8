// Which number of a line is out of its limits, in words, and what stands behind the refusal of a question. Each call writes on a page;
// nothing is written past its row's end, and nothing behind an answer 0.
#![tactic(auto)]

pub mod asked;
pub mod outside;
pub mod quantities;
