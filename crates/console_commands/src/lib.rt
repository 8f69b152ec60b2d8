// The words that name the console's commands (`letters`), and their tables (`commands`). No public function has a `requires`.
#![tactic(auto)]

pub mod commands;
pub mod letters;
