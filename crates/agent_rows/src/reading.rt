// A title read out of its places.

ghost use Rattle.std.specs.Prelude.{◌+◌, ◌≤◌, ◌≡◌, length, take, drop};
ghost use Rattle.rules.specs.Limits.{id_max};
ghost use Rattle.story.specs.Kept.{title_at};
ghost use Rattle.agent_rows.specs.Layout.{row_length, title_places, title_place};
ghost use Rattle.agent_rows.specs.Packed.{title_from, unpacked};

use crate::{
    CAP_AT, COUNT_AT, DROPPED_AT, ENDS_AT, FLOOR_AT, KIND_AT, LENGTH_AT, MARK_AT, MODE_AT,
    OPENED_AT, OWED_AT, TITLE_LAST_AT, TITLE_PLACES, TITLES_AT, TUNED_AT,
};
use rules::{COUNT_PLACES, LANE_PLACES};
use story::{Film, Title};

// Where the title of an id begins.
pub fn title_place(id: u64) -> usize
    requires { id ≤ id_max }
    ensures { result ≡ title_place id }
{
    TITLES_AT + id as usize * TITLE_PLACES
}

// So many numbers, from a place on.
fn numbers_from<const N: usize>(row: &[u64], at: usize) -> [u64; N]
    requires { at + N ≤ length row.now }
    ensures { result ≡ take N (drop at row.now) }
{
    let mut numbers = [0; N];
    numbers.copy_from_slice(&row[at..at + N]);
    numbers
}

// The title whose numbers begin at a place.
pub fn title_from(row: &[u64], at: usize) -> Title
    requires { at + title_places ≤ length row.now }
    ensures { result ≡ title_from row.now at }
{
    let film = Film {
        kind: row[at + KIND_AT],
        length: row[at + LENGTH_AT],
        floor: row[at + FLOOR_AT],
        cap: row[at + CAP_AT],
    };
    let ends = numbers_from::<COUNT_PLACES>(row, at + ENDS_AT);
    let dropped = numbers_from::<LANE_PLACES>(row, at + DROPPED_AT);
    let owed = numbers_from::<LANE_PLACES>(row, at + OWED_AT);
    Title {
        mode: row[at + MODE_AT],
        film,
        opened: row[at + OPENED_AT],
        count: row[at + COUNT_AT],
        mark: row[at + MARK_AT],
        last: row[at + TITLE_LAST_AT],
        tuned: row[at + TUNED_AT],
        ends,
        dropped,
        owed,
    }
}

// The slot of an id.
pub fn title_at(row: &[u64], id: u64) -> Title
    requires { (length row.now ≡ row_length) × (id ≤ id_max) }
    ensures { result ≡ title_at (unpacked row.now).state id }
{
    title_from(row, title_place(id))
}
