// The rates of a line that names them by id.

ghost use Rattle.std.specs.Prelude.{◌≤◌, ◌≡◌, leb};
ghost use Rattle.rules.specs.Limits.{id_max};
ghost use Rattle.rules.specs.Search.{every};
ghost use Rattle.console_balance.specs.Rates.{pairs_most, pairs_in, pair_id, with_rate, rates_by};

use console_lines::lines::NUMBERS_MOST;
use rules::{ID_MAX, TITLES_MAX};
use text::numbers::as_four_bytes;

// A line has up to so many pairs of an id and a rate.
const PAIRS_MOST: usize = TITLES_MAX;

// The rate of a title that the line leaves out.
const USUAL_RATE: u32 = 1;

// How many pairs follow the time, up to the most.
#[tactic(auto, unfolding(crate::specs::Rates::pairs_in))]
pub fn pairs_of(count: usize) -> usize
    ensures { (result ≡ pairs_in count) × (result ≤ pairs_most) }
{
    (count.saturating_sub(1) / 2).min(PAIRS_MOST)
}

// The ids of the pairs are ids.
pub fn ids_ok(numbers: &[u64; NUMBERS_MOST], pairs: usize) -> bool
    requires { pairs ≤ pairs_most }
    ensures { result ≡ every (λ j. leb (pair_id numbers.now j) id_max) pairs }
{
    for i in 0..pairs {
        if ID_MAX < numbers[1 + 2 * i] {
            return false;
        }
    }
    true
}

// Puts a rate at an id; one that is no id has no place.
#[tactic(auto, unfolding(crate::specs::Rates::with_rate))]
fn set_rate(row: &mut [u32; TITLES_MAX], id: u64, rate: u64)
    ensures { row.new ≡ with_rate row.old id rate }
{
    if id <= ID_MAX {
        row[id as usize] = as_four_bytes(rate);
    }
}

// The rates by id: of two rates of one id the last counts.
pub fn rates_by(numbers: &[u64; NUMBERS_MOST], pairs: usize) -> [u32; TITLES_MAX]
    requires { pairs ≤ pairs_most }
    ensures { result ≡ rates_by numbers.now pairs }
{
    let mut row = [USUAL_RATE; TITLES_MAX];
    for i in 0..pairs {
        set_rate(&mut row, numbers[1 + 2 * i], numbers[2 + 2 * i]);
    }
    row
}
