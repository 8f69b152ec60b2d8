// What a line of the operator's console means. `lines::parse` answers it for every line of bytes, as specs/Lines.antt
// defines it. No public function has a `requires`.
#![tactic(auto)]

pub mod lines;
