// The listing of a log of notices, as an agent hears it: the bytes of a line, the step from one notice to the next, and the way
// from standard input to standard output. No public function has a `requires`: any agent, any bytes, any place and any room
// have an answer.
#![tactic(auto)]

pub mod input;
pub mod lines;
pub mod steps;
