// What a terminal shows behind an event once `draw` was entered: the lanes of its title as a small picture (`pictures`), after which lines
// it stands and how `draw` switches it (`drawn`). No public function has a `requires`.
#![tactic(auto)]

pub mod drawn;
pub mod pictures;
