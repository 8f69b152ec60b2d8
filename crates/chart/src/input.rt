// A time among the arguments.

use clocks::reading::{clock, is_clock};
use files::arguments::number_named;
use std::rt::Env;

// In ms, or as h:mm, h:mm:ss or h:mm:ss.mmm.
pub fn time_given(rt: &HostRuntime, i: usize) -> Option<u64> {
    let mut room = [0u8; 4_096];
    if let Ok(n) = rt.arg(i, &mut room) {
        let word = &room[..n];
        if is_clock(word) {
            return Some(clock(word).value);
        }
    }
    number_named(rt, i, b"TIME")
}
