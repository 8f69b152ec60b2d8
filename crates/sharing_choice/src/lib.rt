// The counts that the sharing chooses (01, "Sharing"): lanes given one at a time, until they are the choice to be preferred to all.
// Functions for `sharing`, which is what customers call.
#![tactic(auto)]

pub mod giving;
