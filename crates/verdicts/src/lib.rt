// What events answer, read off any state: the verdicts that the calls go by, in 01's order of refusals.
#![tactic(auto, unfolding(rules::specs::Refusals::first_hit))]

pub mod events;
