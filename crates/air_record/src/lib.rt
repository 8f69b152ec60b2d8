// A record of the air in a text: `record::take_text` reads it, every text of bytes. No public function has a `requires`.
#![tactic(auto)]

pub mod record;
