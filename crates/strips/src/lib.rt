// The strips that a log of notices leaves in a picture: the stretches of lanes, active or still sending, and of doors that are held. A row
// of numbers is kept beside the agent while the log is played: since when each lane is as it is, and up to where each row of the picture
// is drawn. These functions are for the crates above, and say in a `requires` what they build on.
#![tactic(auto)]

pub mod doors;
pub mod kept;
pub mod lanes;
pub mod scale;
pub mod states;
