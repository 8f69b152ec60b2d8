// A title put back into its places.

ghost use Rattle.std.specs.Prelude.{◌+◌, ◌≤◌, ◌≡◌, true, ◌++◌, length};
ghost use Rattle.rules.specs.Limits.{id_max};
ghost use Rattle.story.specs.Next.{with_title};
ghost use Rattle.agent_rows.specs.Layout.{row_length, title_places};
ghost use Rattle.agent_rows.specs.Packed.{packed_title, packed, unpacked, row_sound, with_state};
ghost use Rattle.agent_rows.specs.inner.Laid.{laid};

use crate::reading::title_place;
use crate::{DROPPED_AT, ENDS_AT, LAST_AT, OWED_AT};
use story::Title;

// Writes numbers into a row, from a place on.
fn lay(row: &mut [u64], at: usize, numbers: &[u64])
    requires { at + length numbers.now ≤ length row.old }
    ensures { row.new ≡ laid row.old at numbers.now }
{
    row[at..at + numbers.len()].copy_from_slice(numbers);
}

// Writes a title's numbers into a row, from a place on.
fn lay_title(row: &mut [u64], at: usize, t: Title)
    requires { at + title_places ≤ length row.old }
    ensures { row.new ≡ laid row.old at (packed_title t) }
{
    let own = [
        t.mode,
        t.film.kind,
        t.opened,
        t.film.length,
        t.film.floor,
        t.film.cap,
        t.count,
        t.mark,
        t.last,
        t.tuned,
    ];
    let ends = t.ends;
    let dropped = t.dropped;
    let owed = t.owed;
    lay(row, at, &own);
    lay(row, at + ENDS_AT, &ends);
    lay(row, at + DROPPED_AT, &dropped);
    lay(row, at + OWED_AT, &owed);
}

// Puts another title at an id, after an event at a time.
pub fn put_title(row: &mut [u64], id: u64, t: Title, time: u64)
    requires { (length row.old ≡ row_length) × ((row_sound row.old ≡ true) × (id ≤ id_max)) }
    ensures { row.new
        ≡ packed (with_state (unpacked row.old) (with_title (unpacked row.old).state id t time)) }
{
    row[LAST_AT] = time;
    lay_title(row, title_place(id), t);
}
