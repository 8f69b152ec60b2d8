// Status of a lent row: the count, the lanes held and the held mark of each title asked for, by its id (01, "Status").

ghost use Rattle.std.specs.Prelude.{◌+◌, ◌≤◌, ◌≡◌, true, map, eqb, length};
ghost use Rattle.rules.specs.Refusals.{pick};
ghost use Rattle.rules.specs.Told.{told};
ghost use Rattle.story.specs.Kept.{clear_mark, ruling as rulingOf};
ghost use Rattle.story.specs.Calls.{status_count, status_held, status_mark};
ghost use Rattle.questions.specs.Asked.{asked_answer};
ghost use Rattle.status.specs.Rows.{ids_ok};
ghost use Rattle.agent_rows.specs.Layout.{title_places};
ghost use Rattle.agent_rows.specs.Packed.{title_from, unpacked};
ghost use Rattle.row_calls.specs.Answers.{row_status};
ghost use Rattle.row_calls.specs.inner.Steps.{Tested};

use agent_rows::holding::{ruling, title_held};
use agent_rows::reading::title_place;
use agent_rows::testing::row_ok;
use agent_rows::{LAST_AT, MARK_AT, ROW_LENGTH};
use rules::answers::{Refusal, told};
use rules::truth::row_within;
use rules::{ASKED_MAX, ID_MAX};
use story::CLEAR;

// The mark of the title at a place, unset where its count shows 0.
fn shown_mark(row: &[u64], at: usize) -> u64
    requires { at + title_places ≤ length row.now }
    ensures { result ≡ pick (eqb (rulingOf (title_from row.now at)) 0) clear_mark (title_from row.now at).mark }
{
    let count = ruling(row, at);
    if count == 0 {
        return CLEAR;
    }
    row[at + MARK_AT]
}

// The titles asked for, at a time of a row that was tested.
fn fill(
    row: &[u64],
    time: u64,
    ids: &[u64],
    counts: &mut [u64],
    held: &mut [u64],
    marks: &mut [u64],
)
    requires counts_len { (length counts.old ≡ length ids.now)
        × ((length held.old ≡ length ids.now) × (length marks.old ≡ length ids.now)) }
    requires tested { Tested row.now × (ids_ok ids.now ≡ true) }
    ensures counts_after { counts.new ≡ map (λ i. status_count (unpacked row.now).state i) ids.now }
    ensures held_after { held.new ≡ map (λ i. status_held (unpacked row.now).state i time) ids.now }
    ensures marks_after { marks.new ≡ map (λ i. status_mark (unpacked row.now).state i) ids.now }
{
    for (i, id) in ids.iter().enumerate() {
        let at = title_place(*id);
        counts[i] = ruling(row, at);
        held[i] = title_held(row, at, time);
        marks[i] = shown_mark(row, at);
    }
}

// The answer of a row that was tested: the question's numbers, and the clock.
#[tactic(auto, unfolding(rules::specs::Refusals::first_hit, questions::specs::Asked::asked_answer, status::specs::Rows::ids_ok))]
fn asked(row: &[u64], time: u64, ids: &[u64]) -> Result<(), Refusal>
    requires { Tested row.now }
    ensures { told result ≡ asked_answer (unpacked row.now).state time (ids_ok ids.now) }
{
    if time > ASKED_MAX || !row_within(ids, ids.len(), ID_MAX) {
        return Err(Refusal::OutsideLimits);
    }
    if time < row[LAST_AT] {
        return Err(Refusal::TooEarly);
    }
    Ok(())
}

// The answer, for rows of as many counts, numbers of lanes held and marks.
#[tactic(auto, unfolding(rules::specs::Refusals::first_hit, crate::specs::Answers::row_status, story::specs::Calls::status_answer, questions::specs::Asked::asked_answer, status::specs::Rows::ids_ok))]
fn status_verdict(
    row: &[u64],
    time: u64,
    ids: &[u64],
    counts: usize,
    held: usize,
    marks: usize,
) -> Result<(), Refusal>
    ensures { told result ≡ row_status row.now time ids.now counts held marks }
{
    let n = ids.len();
    if row.len() != ROW_LENGTH || counts != n || held != n || marks != n {
        return Err(Refusal::WrongRows);
    }
    if !row_ok(row) {
        return Err(Refusal::OutsideLimits);
    }
    asked(row, time, ids)
}

// kept: a customer's call gives back 01's number (docs/PROMISES.md, "Public calls"; `rongalishu_c`).
// Fills in counts, lanes held and marks by id.
pub fn status(
    row: &[u64],
    time: u64,
    ids: &[u64],
    counts: &mut [u64],
    held: &mut [u64],
    marks: &mut [u64],
) -> u8
    ensures value { result ≡ row_status row.now time ids.now
        (length counts.old) (length held.old) (length marks.old) }
    ensures counts_after { counts.new
        ≡ pick (eqb result 0) (map (λ i. status_count (unpacked row.now).state i) ids.now) counts.old }
    ensures held_after { held.new
        ≡ pick (eqb result 0) (map (λ i. status_held (unpacked row.now).state i time) ids.now) held.old }
    ensures marks_after { marks.new
        ≡ pick (eqb result 0) (map (λ i. status_mark (unpacked row.now).state i) ids.now) marks.old }
{
    let answer = status_verdict(row, time, ids, counts.len(), held.len(), marks.len());
    if answer.is_ok() {
        fill(row, time, ids, counts, held, marks);
    }
    told(answer)
}
