// When a box takes each cell of a film and from which lane, and how many it keeps, from the numbers of a title's lanes. These functions
// are for the crates above, and say in a `requires` what they build on.
#![tactic(auto)]

ghost use Rattle.std.specs.Prelude.{◌*◌, ◌≤◌, ◌<◌, ◌≡◌, eqb, length as places, get_or};
ghost use Rattle.rules.specs.Limits.{plan_places, lane_places, length_max};
ghost use Rattle.rules.specs.Search.{first};
ghost use Rattle.plans.specs.Row.{written};
ghost use Rattle.takings.specs.Takings.{taking_place, is_kept, kept_at, peak_to};

use rules::LANE_PLACES;

// The most cells that are kept in any tick, and the first tick in which they are.
#[derive(Clone, Copy)]
pub struct Peak {
    pub many: u64,
    pub tick: u64,
}

// The first place that shows a cell, or the number of places.
fn find(numbers: &[u16], cell: u16) -> usize
    ensures { (result ≡ first (λ j. eqb (get_or numbers.now j 0) cell) (places numbers.now)) × (result ≤ places numbers.now) }
{
    for (i, number) in numbers.iter().enumerate() {
        if *number == cell {
            return i;
        }
    }
    numbers.len()
}

// The place at which a cell is taken.
fn place_of(numbers: &[u16], length: u64, tick: u64, cell: u16) -> u16
    requires numbers_bound { places numbers.now ≤ plan_places * lane_places }
    requires tick_in_bounds { tick ≤ length_max }
    ensures { result ≡ taking_place length tick (λ j. get_or numbers.now j 0) (places numbers.now) cell }
{
    if cell as u64 * tick < length {
        return find(numbers, cell) as u16;
    }
    numbers.len() as u16
}

// The places at which all cells of a row are taken.
pub fn take_all(numbers: &[u16], length: u64, tick: u64, taken: &mut [u16])
    requires numbers_bound { places numbers.now ≤ plan_places * lane_places }
    requires tick_in_bounds { tick ≤ length_max }
    requires taken_bound { places taken.old ≤ plan_places }
    ensures { taken.new ≡ written (taking_place length tick (λ j. get_or numbers.now j 0) (places numbers.now)) taken.old (places taken.old) }
{
    for (cell, place) in taken.iter_mut().enumerate() {
        *place = place_of(numbers, length, tick, cell as u16);
    }
}

// Whether a cell that is taken at a place is kept in a tick.
#[tactic(auto, using(std::proofs::lemmas::Bool::Decides::nat_tests), unfolding(crate::specs::Takings::is_kept))]
fn is_kept(place: u16, tick: u64, cell: u64) -> bool
    ensures { result ≡ is_kept (λ c. place) tick cell }
{
    place as u64 / LANE_PLACES as u64 <= tick && tick < cell
}

// How many cells of a row are kept in a tick.
pub fn kept_at(taken: &[u16], tick: u64) -> u64
    requires { places taken.now ≤ plan_places }
    ensures { (result ≡ kept_at (λ c. get_or taken.now c 0) (places taken.now) tick) × (result ≤ plan_places) }
{
    let mut many = 0;
    for (cell, place) in taken.iter().enumerate() {
        many += u64::from(is_kept(*place, tick, cell as u64));
    }
    many
}

// The most cells of a row that are kept in a tick, a tick for each cell.
pub fn peak_of(taken: &[u16]) -> Peak
    requires { places taken.now ≤ plan_places }
    ensures { result ≡ peak_to (kept_at (λ c. get_or taken.now c 0) (places taken.now)) (places taken.now) }
{
    let mut most = Peak { many: 0, tick: 0 };
    for tick in 0..taken.len() as u64 {
        let many = kept_at(taken, tick);
        if most.many < many {
            most = Peak { many, tick };
        }
    }
    most
}
