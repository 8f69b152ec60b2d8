// The calls on an agent that a caller lends as a row of numbers (`agent_rows`), in place: the state is not copied, and its numbers are
// tested once for each call. No call has a `requires`: any row may be lent, and a refusal leaves it as it was. `put_event` and `heed_tested`
// are no calls: they are for code that knows its row to be within its limits, and ask for that.
#![tactic(auto)]

pub mod events;
pub mod lanes;
pub mod notices;
pub mod starting;
pub mod titles;
