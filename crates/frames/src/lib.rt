// What stands in a picture of a log whatever its notices are: where the bands of titles lie, and their backgrounds, the heading, the times
// across the plot, and the line of the pool. These functions are for the crates above, and say in a `requires` what they build on.
#![tactic(auto)]

pub mod bands;
pub mod headings;
pub mod times;
