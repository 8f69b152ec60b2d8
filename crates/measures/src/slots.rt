// The slots of a state, one for each id.

ghost use Rattle.std.specs.Prelude.{◌≤◌, ◌≡◌};
ghost use Rattle.rules.specs.Limits.{id_max};
ghost use Rattle.story.specs.Kept.{title_at};
ghost use Rattle.story.specs.Next.{with_title};

use story::{State, Title};

// The slot of an id.
pub fn title_of(s: State, id: u64) -> Title
    requires { id ≤ id_max }
    ensures { result ≡ title_at s id }
{
    s.titles[id as usize]
}

// The state with another title at an id, after an event at a time.
pub fn with_title(s: State, id: u64, t: Title, time: u64) -> State
    requires { id ≤ id_max }
    ensures { result ≡ with_title s id t time }
{
    let mut q = s;
    q.last = time;
    q.titles[id as usize] = t;
    q
}
