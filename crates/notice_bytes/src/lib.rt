// A notice's fields in bytes (01, "Notices"), by the field table and with a kind known by its number: whether they stand at a place,
// which values they have, how they are laid into a room, and when the bytes of a log that are there decide a place. Functions for the
// crates above: `notice` is what customers call.
#![tactic(auto)]

pub mod laying;
pub mod standing;
pub mod window;
