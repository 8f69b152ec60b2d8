// Notices on the console: the bytes that a line's hexadecimal digits spell, what they read as, and the bytes that are written.
#![tactic(auto)]

pub mod hex;
pub mod reading;
pub mod writing;
