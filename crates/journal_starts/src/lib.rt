// How a head-end finds its journal: played window by window, told in lines, only looked at, or given new sums. What goes wrong is one line
// that begins with a question mark. No contract can say what is read and written: these functions are safe and end, and what a window does
// to the agent is said in `journals`.
#![tactic(auto)]

pub mod findings;
pub mod looking;
pub mod playing;
pub mod renewing;
pub mod saying;
