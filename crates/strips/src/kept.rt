// The numbers kept beside the agent: a stretch of them for each id, and some of the whole picture.

ghost use Rattle.std.specs.Prelude.{◌≤◌, ◌<◌, ◌≡◌, length};
ghost use Rattle.rules.specs.Limits.{id_max};
ghost use Rattle.grid.specs.Bounds.{Exactly};
ghost use Rattle.strips.specs.Kept.{kept_in, own_places, is_new, drawn_to};

// How many numbers an id has.
const OWN_PLACES: usize = 32;

// Of an id: since when lane 0 is as it is, and behind it the other lanes; since when its doors are held; up to where its row of lane 0 is
// drawn, and behind it the other lanes; the same of its doors, its events, the labels of those, its lives and the labels of those.
pub const SINCE: u64 = 0;

pub const DOORS_SINCE: u64 = 12;

pub const LANES: u64 = 13;

pub const DOORS: u64 = 25;

pub const EVENTS: u64 = 26;

pub const EVENT_LABELS: u64 = 27;

pub const LIVES: u64 = 28;

pub const LIFE_LABELS: u64 = 29;

// Of the picture: up to where refusals are drawn, and their labels; and the lanes held in the curve's last step.
pub const REFUSALS: usize = 512;

pub const REFUSAL_LABELS: usize = 513;

pub const LEVEL: usize = 514;

// How many numbers are kept.
pub const KEPT_LENGTH: usize = 515;

// Where a number of an id is kept.
pub fn kept_in(id: u64, j: u64) -> usize
    requires { (id ≤ id_max) × (j < own_places) }
    ensures { Exactly (kept_in id j) 0 511 result }
{
    id as usize * OWN_PLACES + j as usize
}

// Whether a mark is new in its row: what was drawn there last ends left of a place. It is drawn then, and ends at another.
// kept: a function over the drawing would be called with seven arguments where `if claim(..) { .. }` now stands, which is no plainer.
pub fn claim(kept: &mut [u64], j: usize, from: u64, end: u64) -> bool
    requires { j < length kept.old }
    ensures { (result ≡ is_new kept.old j from) × (kept.new ≡ drawn_to kept.old j from end) }
{
    if kept[j] < from {
        kept[j] = end;
        return true;
    }
    false
}
