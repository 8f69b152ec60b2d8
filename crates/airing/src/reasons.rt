// Why a record was refused, where the refusal's number alone does not tell: a title that was last opened as a skip-forward title,
// and the first number of the record that the title can't have.

ghost use Rattle.std.specs.Prelude.{◌≤◌, ◌≡◌};
ghost use Rattle.rules.specs.Limits.{count_max};
ghost use Rattle.airing.specs.Reasons.{first_stray, stray_in, is_skip_forward};
ghost use Rattle.airing.specs.inner.Steps.{is_steady_ending};

use crate::follow::{Ending, end_of};
use crate::refusals::{in_limits, is_cell};
use grid::pow2;
use rules::{DONE, NOT_THERE};
use scheme::STEADY;

// Whether a log was read to its end, and the title stands as a skip-forward title.
#[tactic(auto, using(std::proofs::lemmas::Bool::Decides::nat_tests), unfolding(crate::specs::inner::Steps::is_steady_ending))]
fn is_steady(ending: Ending) -> bool
    ensures { result ≡ is_steady_ending ending }
{
    let film = ending.title.film;
    ending.answer == NOT_THERE && film.cap > 0 && film.kind == STEADY
}

// Whether a log has no film title of an id because it was last opened as a skip-forward title.
pub fn is_skip_forward(pool: u64, log: &[u8], title: u64) -> bool
    ensures { result ≡ is_skip_forward pool log.now title }
{
    if in_limits(pool, title) {
        return is_steady(end_of(pool, log, title));
    }
    false
}

// The first number of a record that is neither a cell of a title with this cap nor nothing; the record's end if there is none.
fn stray_of(cap: u64, record: &[u16]) -> usize
    requires { cap ≤ count_max }
    ensures { result ≡ first_stray cap «record».now }
{
    let cells = pow2(cap) as u16;
    for (i, seen) in record.iter().enumerate() {
        if !is_cell(*seen, cells) {
            return i;
        }
    }
    record.len()
}

// The first number of a record that the title of a log can't have; the record's end if there is none, or no such title.
pub fn first_stray(pool: u64, log: &[u8], title: u64, record: &[u16]) -> usize
    ensures { result ≡ stray_in pool log.now title «record».now }
{
    if in_limits(pool, title) {
        let ending = end_of(pool, log, title);
        let answer = ending.answer;
        let t = ending.title;
        if answer == DONE {
            return stray_of(t.film.cap, record);
        }
    }
    record.len()
}
