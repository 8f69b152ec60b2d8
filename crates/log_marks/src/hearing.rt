// What one notice leaves in the picture, by what the agent makes of it.

ghost use Rattle.std.specs.Prelude.{◌≤◌, ◌≡◌, length};
ghost use Rattle.rules.specs.Limits.{id_max};
ghost use Rattle.notice.specs.declared.Reading.TheVariants as reading;
ghost use Rattle.story.specs.Kept.{absent_mode, title_at};
ghost use Rattle.agent.specs.Turns.{noticed};
ghost use Rattle.moments.specs.Searched.{Timed};
ghost use Rattle.text.specs.Pages.{Puts};
ghost use Rattle.agent_rows.specs.Layout.{row_length};
ghost use Rattle.agent_rows.specs.Packed.{unpacked};
ghost use Rattle.row_calls.specs.inner.Steps.{Tested, TakesNotice};
ghost use Rattle.strips.specs.Kept.{kept_length};
ghost use Rattle.log_marks.specs.Hearing.{
  life_marks,
  life_marks_kept,
  past_marks,
  past_kept,
  turn_marks,
  turn_kept,
  accepted_marks,
  accepted_kept,
  unheard_marks,
  unheard_kept,
  notice_marks,
  notice_kept,
  Takes,
};

use agent_rows::LAST_AT;
use agent_rows::reading::title_at;
use curves::put_curve;
use frames::bands::{View, band_of};
use marks::lives::{put_life, put_life_label};
use marks::refused::{place_of, put_number_at, put_refused};
use marks::ticks::{put_tick, put_tick_label};
use measures::lanes::ruling;
use notice::Notice;
use row_calls::notices::heed_tested;
use rules::{DONE, ID_MAX};
use spans::releases::title_until;
use story::{CLOSING, HELD, OPEN, Title};
use strips::doors::put_doors;
use strips::lanes::put_lanes;
use strips::scale::Band;
use text::page::Page;

// A life that ended at a time: its frame and its label.
pub fn put_ended(page: &mut Page<'_>, kept: &mut [u64], band: Band, t: Title, time: u64)
    requires { (length kept.old ≡ kept_length) × ((band.id ≤ id_max) × Timed t) }
    ensures written { Puts page.old (life_marks band kept.old t time) page.new }
    ensures kept_after { kept.new ≡ life_marks_kept band kept.old t time }
{
    put_life(page, kept, band, t, time);
    put_life_label(page, kept, band, t);
}

// At an event, the life of a title that had closed before it.
fn put_past(page: &mut Page<'_>, kept: &mut [u64], band: Band, t: Title)
    requires { (length kept.old ≡ kept_length) × ((band.id ≤ id_max) × ((t.mode ≡ absent_mode → ⊥) → Timed t)) }
    ensures written { Puts page.old (past_marks band kept.old t) page.new }
    ensures kept_after { kept.new ≡ past_kept band kept.old t }
{
    if t.mode == CLOSING {
        put_ended(page, kept, band, t, title_until(t));
    }
}

// What an event ends of its title, which stands as `after` behind it.
fn put_turn(page: &mut Page<'_>, kept: &mut [u64], band: Band, t: Title, after: Title, time: u64)
    requires { (length kept.old ≡ kept_length) × ((band.id ≤ id_max) × ((t.mode ≡ absent_mode → ⊥) → Timed t)) }
    ensures written { Puts page.old (turn_marks band kept.old t after time) page.new }
    ensures kept_after { kept.new ≡ turn_kept band kept.old t after time }
{
    put_past(page, kept, band, t);
    put_lanes(page, kept, band, t, ruling(after), t.mode != OPEN, time);
    put_doors(page, kept, band, t, after.mark == HELD, time);
}

// An accepted notice: the rows of the agent before it and after it.
fn put_accepted(page: &mut Page<'_>, kept: &mut [u64], v: View, was: &[u64], row: &[u64], n: Notice)
    requires kept_len { (length kept.old ≡ kept_length) × (n.title ≤ id_max) }
    requires tested { Tested was.now × (length row.now ≡ row_length) }
    ensures written { Puts page.old (accepted_marks v kept.old (unpacked was.now).state (unpacked row.now).state n) page.new }
    ensures kept_after { kept.new ≡ accepted_kept v kept.old (unpacked was.now).state (unpacked row.now).state n }
{
    let id = n.title as u64;
    let band = band_of(v, id);
    put_curve(page, kept, v.curve, was, was[LAST_AT], n.time);
    put_turn(
        page,
        kept,
        band,
        title_at(was, id),
        title_at(row, id),
        n.time,
    );
    put_tick(page, kept, band, n);
    put_tick_label(page, kept, band, n);
}

// A refused one.
fn put_unheard(page: &mut Page<'_>, kept: &mut [u64], v: View, n: Notice, answer: u8)
    requires { length kept.old ≡ kept_length }
    ensures written { Puts page.old (unheard_marks v kept.old n answer) page.new }
    ensures kept_after { kept.new ≡ unheard_kept v kept.old n }
{
    let x = place_of(v.curve.scale, n.time);
    put_refused(page, kept, x, n, answer);
    put_number_at(page, kept, x, answer);
}

// A notice, told to the agent of a row; another row is lent for the agent as it was.
pub fn hear(
    page: &mut Page<'_>,
    kept: &mut [u64],
    v: View,
    was: &mut [u64],
    row: &mut [u64],
    n: Notice,
)
    requires kept_len { (length kept.old ≡ kept_length) × (length was.old ≡ row_length) }
    requires tested { Tested row.old }
    ensures written { Puts page.old (notice_marks v (unpacked row.old) n kept.old) page.new }
    ensures kept_after { kept.new ≡ notice_kept v (unpacked row.old) n kept.old }
    ensures takes { Takes row.old n row.new }
{
    was.copy_from_slice(row);
    let answer = heed_tested(row, n);
    if answer == DONE && n.title as u64 <= ID_MAX {
        put_accepted(page, kept, v, was, row, n);
    } else {
        put_unheard(page, kept, v, n, answer);
    }
}
