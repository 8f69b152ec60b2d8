// What programs over files share: the numbers among their arguments, files, what is said where one of them is wrong, and lines of a report. How
// many arguments a program takes is `streams::usage`'s. No contract can say what is read and written: but for the lines, these functions are safe and end. No public function has a `requires`.
#![tactic(auto)]

pub mod arguments;
pub mod complaints;
pub mod lines;
pub mod loading;
pub mod pages;
pub mod paths;
