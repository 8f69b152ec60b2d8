// What every answer of the console is made of: 0, alone or with numbers behind it, or a refusal in words; what is wrong
// with a line; and help. Each call writes on a page; nothing is written past its row's end.
#![tactic(auto)]

pub mod entries;
pub mod faults;
pub mod outcomes;
