// What is left to draw at a log's end: the stretches that no event ended, and bytes that are no notice.

ghost use Rattle.std.specs.Prelude.{◌≤◌, ◌≡◌, length};
ghost use Rattle.rules.specs.Limits.{id_max, titles_max};
ghost use Rattle.story.specs.Kept.{absent_mode};
ghost use Rattle.moments.specs.Searched.{Timed};
ghost use Rattle.text.specs.Pages.{Puts};
ghost use Rattle.agent_rows.specs.Packed.{unpacked};
ghost use Rattle.row_calls.specs.inner.Steps.{Tested};
ghost use Rattle.strips.specs.Kept.{kept_length};
ghost use Rattle.log_marks.specs.Ending.{left_until, left_marks, left_kept, all_marks, all_kept, cut_marks, cut_kept};

use crate::hearing::put_ended;
use agent_rows::reading::title_at;
use drawing::axis::PLOT_LEFT;
use frames::bands::{View, band_of};
use marks::refused::{put_broken, put_number_at};
use measures::lanes::ruling;
use rules::{MALFORMED, TITLES_MAX};
use spans::releases::title_until;
use story::{ABSENT, OPEN, Title};
use strips::doors::put_doors;
use strips::lanes::put_lanes;
use strips::scale::Band;
use text::page::Page;

// When the life of a title ends that stands so at the end: with the picture if it is open, else when its lanes are released.
fn left_until(t: Title, end: u64) -> u64
    requires { (t.mode ≡ absent_mode → ⊥) → Timed t }
    ensures { result ≡ left_until t end }
{
    if t.mode == OPEN {
        return end;
    }
    title_until(t)
}

// What is left of the title of a band.
fn put_left(page: &mut Page<'_>, kept: &mut [u64], band: Band, t: Title, end: u64)
    requires { (length kept.old ≡ kept_length) × ((band.id ≤ id_max) × ((t.mode ≡ absent_mode → ⊥) → Timed t)) }
    ensures written { Puts page.old (left_marks band kept.old t end) page.new }
    ensures kept_after { kept.new ≡ left_kept band kept.old t end }
{
    if t.mode != ABSENT {
        put_ended(page, kept, band, t, left_until(t, end));
        put_lanes(page, kept, band, t, ruling(t), true, end);
        put_doors(page, kept, band, t, false, end);
    }
}

// What is left of all titles.
pub fn put_all(page: &mut Page<'_>, kept: &mut [u64], v: View, row: &[u64], end: u64)
    requires { (length kept.old ≡ kept_length) × Tested row.now }
    ensures written { Puts page.old (all_marks v (unpacked row.now).state kept.old end titles_max) page.new }
    ensures kept_after { kept.new ≡ all_kept v (unpacked row.now).state kept.old end titles_max }
{
    for id in 0..TITLES_MAX as u64 {
        put_left(page, kept, band_of(v, id), title_at(row, id), end);
    }
}

// Bytes behind the last notice are none.
pub fn put_cut(page: &mut Page<'_>, kept: &mut [u64], place: usize, size: usize)
    requires { length kept.old ≡ kept_length }
    ensures written { Puts page.old (cut_marks kept.old place size) page.new }
    ensures kept_after { kept.new ≡ cut_kept kept.old place size }
{
    if place < size {
        put_broken(page, kept);
        put_number_at(page, kept, PLOT_LEFT, MALFORMED);
    }
}
