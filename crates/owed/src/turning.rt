// What an event makes of its title (01, "Events"; 02, 7 and 12).

ghost use Rattle.std.specs.Prelude.{◌≤◌, ◌≡◌};
ghost use Rattle.rules.specs.Limits.{asked_max};
ghost use Rattle.story.specs.Next.{opened_title, next_title};
ghost use Rattle.owed.specs.Owing.{Turnable};

use crate::dropping::{changed_title, closed_title, doors_title};
use rules::{COUNT_PLACES, LANE_PLACES};
use story::{Act, CLEAR, Film, OPEN, Title};

// A film opened as a title at a time: no count has ended and no lane was dropped.
fn opened_title(film: Film, time: u64, count: u64) -> Title
    ensures { result ≡ opened_title film time count }
{
    Title {
        mode: OPEN,
        film,
        opened: time,
        count,
        mark: CLEAR,
        last: time,
        tuned: time,
        ends: [0; COUNT_PLACES],
        dropped: [0; LANE_PLACES],
        owed: [0; LANE_PLACES],
    }
}

// The title after an event at a time.
pub fn next_title(t: Title, time: u64, act: Act) -> Title
    requires turnable { Turnable t act }
    requires time_le_asked_max { time ≤ asked_max }
    ensures { result ≡ next_title t time act }
{
    match act {
        Act::Opens { film, count } => opened_title(film, time, count),
        Act::Changes { count } => changed_title(t, time, count),
        Act::Closes => closed_title(t, time),
        Act::Doors { held } => doors_title(t, time, held),
    }
}
