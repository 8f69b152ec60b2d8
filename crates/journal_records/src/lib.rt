// The bytes of a head-end's journal: a header of 64 bytes, and behind it records, each with its number, its kind, its payload and the sum of
// the journal's identity and of all that. A record verifies by itself at any place, and only in its own journal.
// No public function has a `requires`: any bytes and any place have an answer, and a refusal writes nothing.
#![tactic(auto)]

pub mod headers;
pub mod records;
pub mod search;
