// The event of a line of the console, what the line does to the agent, the number that the words of its refusal name, and the
// notice that it writes.
#![tactic(auto)]

pub mod acts;
pub mod events;
pub mod named;
pub mod writing;
