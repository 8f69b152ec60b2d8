// Status: at a given time, the count, the lanes held and the held mark of each title asked for, by its id (01, "Status"; 02,
// 7), over flat rows; `status_records` has it over a row of records. It has no `requires`; a refusal writes nothing.
#![tactic(auto, unfolding(rules::specs::Refusals::first_hit, story::specs::Calls::status_answer, questions::specs::Asked::asked_answer, crate::specs::Rows::ids_ok))]

ghost use Rattle.std.specs.Prelude.{◌≡◌, true, map, eqb, length};
ghost use Rattle.rules.specs.Refusals.{pick};
ghost use Rattle.rules.specs.Told.{told};
ghost use Rattle.story.specs.Kept.{clear_mark, ruling as rulingOf, state_ok};
ghost use Rattle.story.specs.Calls.{status_answer, status_count, status_held, status_mark};
ghost use Rattle.status.specs.Rows.{ids_ok};

use measures::lanes::{ruling, title_held};
use measures::slots::title_of;
use questions::asked_verdict;
use rules::ID_MAX;
use rules::answers::{Refusal, told};
use rules::truth::row_within;
use story::{CLEAR, State, Title};

// The ids are ids.
fn ids_ok(ids: &[u64]) -> bool
    ensures { result ≡ ids_ok ids.now }
{
    row_within(ids, ids.len(), ID_MAX)
}

// The answer, for rows of as many counts, numbers of lanes held and marks.
fn status_verdict(
    s: State,
    time: u64,
    ids: &[u64],
    counts: usize,
    held: usize,
    marks: usize,
) -> Result<(), Refusal>
    ensures { told result ≡ status_answer s time ids.now counts held marks }
{
    let n = ids.len();
    if counts != n || held != n || marks != n {
        return Err(Refusal::WrongRows);
    }
    asked_verdict(s, time, ids_ok(ids))
}

// The mark of a title, unset where its count shows 0.
fn shown_mark(t: Title) -> u64
    ensures { result ≡ pick (eqb (rulingOf t) 0) clear_mark t.mark }
{
    if ruling(t) == 0 { CLEAR } else { t.mark }
}

// The count of each title asked for, 0 where it isn't open, the lanes that it holds at a time, and its mark.
fn fill(s: State, time: u64, ids: &[u64], counts: &mut [u64], held: &mut [u64], marks: &mut [u64])
    requires counts_len { (length counts.old ≡ length ids.now)
        × ((length held.old ≡ length ids.now) × (length marks.old ≡ length ids.now)) }
    requires s_value { (state_ok s ≡ true) × (ids_ok ids.now ≡ true) }
    ensures counts_after { counts.new ≡ map (λ i. status_count s i) ids.now }
    ensures held_after { held.new ≡ map (λ i. status_held s i time) ids.now }
    ensures marks_after { marks.new ≡ map (λ i. status_mark s i) ids.now }
{
    for (i, id) in ids.iter().enumerate() {
        let t = title_of(s, *id);
        counts[i] = ruling(t);
        held[i] = title_held(t, time);
        marks[i] = shown_mark(t);
    }
}

// kept: a customer's call gives back 01's number (docs/PROMISES.md, "Public calls").
// Fills in counts, lanes held and marks by id, over flat rows.
pub fn status(
    s: State,
    time: u64,
    ids: &[u64],
    counts: &mut [u64],
    held: &mut [u64],
    marks: &mut [u64],
) -> u8
    ensures value { result ≡ status_answer s time ids.now
        (length counts.old) (length held.old) (length marks.old) }
    ensures counts_after { counts.new ≡ pick (eqb result 0) (map (λ i. status_count s i) ids.now) counts.old }
    ensures held_after { held.new ≡ pick (eqb result 0) (map (λ i. status_held s i time) ids.now) held.old }
    ensures marks_after { marks.new ≡ pick (eqb result 0) (map (λ i. status_mark s i) ids.now) marks.old }
{
    let answer = status_verdict(s, time, ids, counts.len(), held.len(), marks.len());
    if answer.is_ok() {
        fill(s, time, ids, counts, held, marks);
    }
    told(answer)
}
