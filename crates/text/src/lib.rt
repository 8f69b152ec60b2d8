// Text as the programs read and write it: bytes, numbers and hexadecimal into a lent row; runs of bytes and the numbers
// that they spell; and the buffer between two reads. What is written goes on a page, a lent row with the place up to which it is
// written. Nothing is written past the row's end: what has no room is left out. No public function has a `requires`: each answers
// for every input, as its definition in specs/ says.
#![tactic(auto)]

pub mod bytes;
pub mod digits;
pub mod feed;
pub mod numbers;
pub mod output;
pub mod page;
