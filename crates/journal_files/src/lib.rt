// The files of a head-end: its journal of notices, the sums beside it, and the file by which a second head-end on the same journal
// is kept out. What goes wrong is one line on standard error that begins with a question mark and ends in the system's words. No
// contract can say what is read and written: these functions are safe and end, and say of places and lengths what they can. No
// public function has a `requires`.
#![tactic(auto)]

pub mod appending;
pub mod cutting;
pub mod folders;
pub mod holding;
pub mod opening;
pub mod pairs;
pub mod processes;
pub mod records;
pub mod windows;
