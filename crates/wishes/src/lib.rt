// Which changes the sharing of the pool asks for (02, 11 and 12): a title that shares it, and whose share differs from its
// count, is wished another, the drops first, each kind lowest id first. What a caller tests before `wishes_of` is in `sharers`.
#![tactic(auto)]

mod passes;
mod shares;

ghost use Rattle.std.specs.Prelude.{◌≤◌, ◌≡◌, true, length};
ghost use Rattle.rules.specs.Limits.{titles_max};
ghost use Rattle.story.specs.Kept.{state_ok};
ghost use Rattle.sharers.specs.Sharers.{rates_ok, floors_of, shared_pool};
ghost use Rattle.wishes.specs.Wishes.{wishes as wishesFor, wishes_in};

use crate::passes::pass;
use crate::shares::shares_of;
use rules::TITLES_MAX;
use story::State;

// The changes that are wished for, in their order: of the first `many` places of each row, the title's id and its count.
// kept: the planner's call gives each row to C by itself, and no heap gives a list of so many.
#[derive(Clone, Copy)]
pub struct Wishes {
    pub many: usize,
    pub titles: [u64; TITLES_MAX],
    pub counts: [u64; TITLES_MAX],
}

// The changes that the sharing asks for. No change is wished where a title has its share, or where none takes part.
pub fn wishes_of(s: State, rates: &[u32]) -> Wishes
    requires s_value { state_ok s ≡ true }
    requires rates_len { (length rates.now ≡ titles_max) × ((rates_ok rates.now ≡ true) × (floors_of s ≤ shared_pool s)) }
    ensures result_value { wishes_in result ≡ wishesFor s rates.now }
    ensures many_le_titles_max { result.many ≤ titles_max }
{
    let shares = shares_of(s, rates);
    let none = [0u64; TITLES_MAX];
    let w = Wishes {
        many: 0,
        titles: none,
        counts: none,
    };
    pass(s, &shares, true, pass(s, &shares, false, w))
}
