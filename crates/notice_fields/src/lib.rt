// The fields of which notices are made (01, "Notices"; hold and lift by 02, request 7, the opening of a skip-forward title by
// request 12): the table of them, and big-endian numbers. It knows a kind by its number alone. Functions for the crates above:
// `notice` is what customers call.
#![tactic(auto)]

pub mod fields;
pub mod numbers;
