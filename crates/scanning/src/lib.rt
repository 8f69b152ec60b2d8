// The scan of a damaged log of notices (02, request 8): what it does at a place, and its steps over a window.
#![tactic(auto)]

pub mod scan;
pub mod steps;
