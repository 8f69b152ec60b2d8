// What the console says behind a refusal, so that an operator knows what to type next: that a title is gone, when an id comes free, the next
// slot start, when there is room; which number is out of its limits, `console_limits` says. Each call writes on a page; nothing is written
// past its row's end, and nothing behind an answer 0.
#![tactic(auto)]

pub mod events;
pub mod lanes;
