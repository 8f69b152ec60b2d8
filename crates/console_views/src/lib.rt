// What the console shows of titles: what each lane sends over some ticks, the titles of a pool for people, and when an event is
// accepted. Each call writes on a page; nothing is written past the end of its row. No public function has a `requires`.
#![tactic(auto)]

mod coming;
mod films;
mod holding;
pub mod lanes;
pub mod titles;
pub mod when;
