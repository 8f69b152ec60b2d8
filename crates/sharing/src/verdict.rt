// Which sharings are refused, and with which number.
ghost use Rattle.std.specs.Prelude.{◌≡◌};
ghost use Rattle.sharing_titles.specs.Titles.{titles, SameLengths};
ghost use Rattle.sharing.specs.Verdict.{rows_fit, allowed as allowedOf, TalliesTitles, verdict_of};

use rules::within;
use sharing_titles::titles::{Rated, floor_total, title_at};

// What one look at every title tells.
#[derive(Clone, Copy)]
pub struct TitlesTally {
    // each number is within its limits
    pub allowed: bool,
    // no floor is above its cap
    pub ordered: bool,
}

// Four rows of one length, at most sixteen titles, and room for their counts.
#[tactic(auto, unfolding(crate::specs::Verdict::rows_fit))]
fn rows_fit(rates: &[u32], lengths: &[u32], floors: &[u32], caps: &[u32], room: usize) -> bool
    ensures { result
        ≡ rows_fit rates.now lengths.now floors.now caps.now room }
{
    let n = rates.len();
    lengths.len() == n
        && floors.len() == n
        && caps.len() == n
        && n <= rules::TITLES_MAX
        && n <= room
}

// Each number of the title is within its limits.
#[tactic(auto, unfolding(crate::specs::Verdict::allowed))]
fn allowed(t: Rated) -> bool
    ensures { result ≡ allowedOf t }
{
    // all four are asked, so that a compiler asks them of several titles at once
    within(rules::RATE_MIN, rules::RATE_MAX, t.rate as u64)
        & within(rules::LENGTH_MIN, rules::LENGTH_MAX, t.length as u64)
        & within(rules::FLOOR_MIN, rules::FLOOR_MAX, t.floor as u64)
        & within(rules::COUNT_MIN, rules::COUNT_MAX, t.cap as u64)
}

// One look at every title.
fn examine(rates: &[u32], lengths: &[u32], floors: &[u32], caps: &[u32]) -> TitlesTally
    requires { SameLengths rates.now lengths.now floors.now caps.now }
    ensures { TalliesTitles
        (titles rates.now lengths.now floors.now caps.now) result }
{
    let mut good = true;
    let mut kept = true;
    for i in 0..rates.len() {
        let t = title_at(rates, lengths, floors, caps, i);
        good &= allowed(t);
        kept &= t.floor <= t.cap;
    }
    TitlesTally {
        allowed: good,
        ordered: kept,
    }
}

// The answer, by the order of 01: the first refusal that hits, or done.
pub fn verdict(
    pool: u64,
    rates: &[u32],
    lengths: &[u32],
    floors: &[u32],
    caps: &[u32],
    room: usize,
) -> u8
    ensures { result
        ≡ verdict_of pool rates.now lengths.now floors.now caps.now room }
{
    if !rows_fit(rates, lengths, floors, caps, room) {
        return rules::WRONG_ROWS;
    }
    if !within(rules::POOL_MIN, rules::POOL_MAX, pool) {
        return rules::OUTSIDE_LIMITS;
    }
    let t = examine(rates, lengths, floors, caps);
    if !t.allowed {
        return rules::OUTSIDE_LIMITS;
    }
    if !t.ordered {
        return rules::FLOOR_ABOVE_CAP;
    }
    if pool < floor_total(floors) {
        return rules::NO_LANES;
    }
    rules::DONE
}
