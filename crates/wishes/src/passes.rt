// The wishes, collected in passes over the ids, lowest first.

ghost use Rattle.std.specs.Prelude.{◌+◌, ◌≤◌, ◌<◌, ◌≡◌, not, get_or};
ghost use Rattle.rules.specs.Limits.{titles_max};
ghost use Rattle.rules.specs.Refusals.{pick};
ghost use Rattle.rules.specs.Search.{how_many};
ghost use Rattle.wishes.specs.Passes.{wants_move as moves_of, moves_at, with_wish, pass_to};

use crate::Wishes;
use rules::TITLES_MAX;
use sharers::takes_part;
use story::{State, Title};

// The title takes part, and its share is above its count, or else below it.
fn moves(up: bool, t: Title, share: u64) -> bool
    ensures { result ≡ moves_of up t share }
{
    if up {
        takes_part(t) && t.count < share
    } else {
        takes_part(t) && share < t.count
    }
}

// One wish more, behind the others.
fn wished(w: Wishes, id: u64, count: u64) -> Wishes
    requires { w.many < titles_max }
    ensures { result ≡ with_wish w id count }
{
    let at = w.many;
    let mut r = w;
    r.many = at + 1;
    r.titles[at] = id;
    r.counts[at] = count;
    r
}

// One wish more, where a test asks for it.
fn wished_if(yes: bool, w: Wishes, id: u64, count: u64) -> Wishes
    requires { w.many + pick yes 1 0 ≤ titles_max }
    ensures { result ≡ pick yes (with_wish w id count) w }
{
    if yes {
        return wished(w, id, count);
    }
    w
}

// The wishes that move a title up, or down, behind those that stand, which are of the other kind.
pub fn pass(s: State, shares: &[u64; TITLES_MAX], up: bool, w: Wishes) -> Wishes
    requires { w.many ≤ how_many (moves_at (not up) s shares.now) titles_max }
    ensures { result ≡ pass_to (moves_at up s shares.now) (λ i. get_or shares.now i 0) w titles_max }
{
    let mut q = w;
    for (i, t) in s.titles.iter().enumerate() {
        let share = shares[i];
        q = wished_if(moves(up, *t, share), q, i as u64, share);
    }
    q
}
