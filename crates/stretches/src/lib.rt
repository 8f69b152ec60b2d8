// What a dropped lane owes, stretch by stretch. Of a lane from the floor up each channel has one stretch at most (`upper`), of a lane below
// it each slot of the floor's count has a few (`low`), and a lane of a skip-forward title has two (`turns`). The functions require a title
// whose numbers are within their limits; where events drop a lane they say what it owes, and `owed` counts any other tick by tick.
#![tactic(auto)]

pub mod latest;
pub mod low;
pub mod turns;
pub mod upper;
