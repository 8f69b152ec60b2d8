// What the air really carried (02, 13): at which ticks of its latest opening in a log of notices a title has admissions, and what
// becomes of each by a record of its lanes. No public function has a `requires`: any pool, bytes, title and rows have an answer.
#![tactic(auto)]

mod follow;
mod marks;
pub mod reasons;
mod refusals;

ghost use Rattle.std.specs.Prelude.{◌≤◌, ◌≡◌, length};
ghost use Rattle.judging.specs.Record.{ticks_max};
ghost use Rattle.airing.specs.Air.{
  refused_judgement,
  air_gives,
  air_leaves,
  ticks_answer,
  ticks_leaves,
};
ghost use Rattle.airing.specs.inner.Steps.{rows_answer};

use follow::{end_of, follow};
use judging::{blank_marks, judge};
use refusals::{all_cells, first_answer, in_limits};
use rules::{DONE, OUTSIDE_LIMITS};

// What the call gives back: how many admissions the record judges, how many of those were played through, and how many begin in
// it but outlast it. Beside a refusal the counts are 0.
#[derive(Clone, Copy)]
pub struct Judgement {
    pub answer: u8,
    pub judged: u64,
    pub played: u64,
    pub outlast: u64,
}

fn refused(answer: u8) -> Judgement
    ensures { result ≡ refused_judgement answer }
{
    Judgement {
        answer,
        judged: 0,
        played: 0,
        outlast: 0,
    }
}

// Marks in a row, from tick 0 of the title's latest opening in the log on, each tick that is an admission with 1, the others with
// 0. Refusals, in this order, which write nothing: 1 for a pool or a title outside its limits, 11 for a log with a malformed or
// cut notice in it, 3 for a title that was not opened in it, or last as a skip-forward title.
pub fn admissions(pool: u64, log: &[u8], title: u64, marks: &mut [u8]) -> u8
    ensures { (result ≡ ticks_answer pool log.now title)
        × (marks.new ≡ ticks_leaves pool log.now title marks.old) }
{
    if in_limits(pool, title) {
        let answer = end_of(pool, log, title).answer;
        if answer == DONE {
            follow(pool, log, title, marks);
        }
        return answer;
    }
    OUTSIDE_LIMITS
}

// Over lent marks, once the numbers, the record and the room are in order.
fn judge_log(
    pool: u64,
    log: &[u8],
    title: u64,
    record: &[u16],
    marks: &mut [u8],
    row: &mut [u16],
) -> Judgement
    requires row_value { rows_answer pool title «record».now (length row.old) ≡ 0 }
    requires ticks_max_in_bounds { ticks_max ≤ length marks.old }
    ensures { (result ≡ air_gives pool log.now title «record».now (length row.old))
        × (row.new ≡ air_leaves pool log.now title «record».now row.old) }
{
    let ending = follow(pool, log, title, marks);
    let answer = ending.answer;
    if answer == DONE {
        let t = ending.title;
        if all_cells(t.film.cap, record) {
            let counts = judge(t, record, marks, row);
            return Judgement {
                answer: DONE,
                judged: counts.judged,
                played: counts.played,
                outlast: counts.outlast,
            };
        }
        return refused(OUTSIDE_LIMITS);
    }
    refused(answer)
}

// Judges the admissions of a title's latest opening in a log, played into a fresh agent of a pool, by a record of its lanes from
// tick 0 of that opening on. The row gets, for each admission in order whose play ticks lie in the record, the lowest cell of
// the film that no lane showed from the start through the cell's turn, or 65535; later places stay. Refusals, in this order,
// which write nothing: 1 for a pool or a title outside its limits, 10 for a record that is ragged or too long, or a row with
// less than a place for each tick, 11 for a log with a malformed or cut notice in it, 3 for a title that was not opened in it,
// or last as a skip-forward title, 1 for a number in the record that is neither a cell of the title nor 65535.
pub fn air(pool: u64, log: &[u8], title: u64, record: &[u16], row: &mut [u16]) -> Judgement
    ensures { (result ≡ air_gives pool log.now title «record».now (length row.old))
        × (row.new ≡ air_leaves pool log.now title «record».now row.old) }
{
    let answer = first_answer(pool, title, record, row.len());
    if answer == DONE {
        let mut marks = blank_marks();
        return judge_log(pool, log, title, record, &mut marks, row);
    }
    refused(answer)
}
