// An event on a lent row: its numbers, the clock, its title, and the lanes, in 01's order.

ghost use Rattle.std.specs.Prelude.{◌≤◌, ◌≡◌, true, leb, eqb};
ghost use Rattle.rules.specs.Limits.{both, id_max, event_time_max};
ghost use Rattle.rules.specs.Refusals.{pick};
ghost use Rattle.rules.specs.Told.{told};
ghost use Rattle.story.specs.Story.{event as event_at, act_limits};
ghost use Rattle.story.specs.Next.{with_title, call_next};
ghost use Rattle.story.specs.Runs.{answered};
ghost use Rattle.measures.specs.Readable.{Readable};
ghost use Rattle.scheduler.specs.Outcomes.{settled_answer};
ghost use Rattle.agent_rows.specs.Packed.{packed, unpacked, with_state};
ghost use Rattle.row_calls.specs.Answers.{row_event, row_after_event};
ghost use Rattle.row_calls.specs.inner.Steps.{Tested, Timely};

use agent_rows::holding::others_held;
use agent_rows::laying::put_title;
use agent_rows::reading::title_at;
use agent_rows::testing::row_ok;
use agent_rows::{LAST_AT, POOL_AT, ROW_LENGTH};
use measures::lanes::title_held;
use owed::turning::next_title;
use rules::answers::{Refusal, told};
use rules::{EVENT_TIME_MAX, ID_MAX};
use story::{Act, Event, Title};
use title_verdicts::title_verdict;
use verdicts::events::{act_ok, sets_count};

// An event that only lanes may refuse: where it asks for them it is taken if the pool has as many as the other titles and the next one
// would hold.
fn settle(row: &mut [u64], id: u64, time: u64, next: Title, asks: bool) -> Result<(), Refusal>
    requires tested { Tested row.old }
    requires id_le_id_max { (id ≤ id_max) × Readable next }
    ensures value { told result ≡ settled_answer asks (with_title (unpacked row.old).state id next time) time }
    ensures row_after { row.new ≡ pick (eqb (told result) 0)
        (packed (with_state (unpacked row.old) (with_title (unpacked row.old).state id next time))) row.old }
{
    if asks && row[POOL_AT] < others_held(row, id, time) + title_held(next, time) {
        return Err(Refusal::NoLanes);
    }
    put_title(row, id, next, time);
    Ok(())
}

// An event within its limits and in its time: what its title decides, and then the lanes.
fn turn(row: &mut [u64], id: u64, time: u64, act: Act) -> Result<(), Refusal>
    requires tested { Tested row.old }
    requires timely { Timely row.old id time act }
    ensures value { told result ≡ answered (unpacked row.old).state (event_at id time act) }
    ensures row_after { row.new ≡ pick (eqb (told result) 0)
        (packed (with_state (unpacked row.old) (call_next (unpacked row.old).state id time act))) row.old }
{
    let t = title_at(row, id);
    title_verdict(t, time, act)?;
    settle(row, id, time, next_title(t, time, act), sets_count(act))
}

// The numbers of an event.
fn fits(id: u64, time: u64, act: Act) -> bool
    ensures { result ≡ both (both (leb id id_max) (leb time event_time_max)) (act_limits act true) }
{
    id <= ID_MAX && time <= EVENT_TIME_MAX && act_ok(act)
}

// An event on a row that was tested: its numbers, the clock, and then its title.
pub fn put_event(row: &mut [u64], e: Event) -> Result<(), Refusal>
    requires { Tested row.old }
    ensures value { told result ≡ answered (unpacked row.old).state e }
    ensures row_after { row.new ≡ pick (eqb (told result) 0)
        (packed (with_state (unpacked row.old) (call_next (unpacked row.old).state e.title e.time e.act)))
        row.old }
{
    let id = e.title;
    let time = e.time;
    let act = e.act;
    if !fits(id, time, act) {
        return Err(Refusal::OutsideLimits);
    }
    if time < row[LAST_AT] {
        return Err(Refusal::TooEarly);
    }
    turn(row, id, time, act)
}

// An event on any row.
fn entered(row: &mut [u64], e: Event) -> Result<(), Refusal>
    ensures value { told result ≡ row_event row.old e }
    ensures row_after { row.new ≡ row_after_event row.old e }
{
    if row.len() != ROW_LENGTH {
        return Err(Refusal::WrongRows);
    }
    if !row_ok(row) {
        return Err(Refusal::OutsideLimits);
    }
    put_event(row, e)
}

// kept: a customer's call gives back 01's number (docs/PROMISES.md, "Public calls"; `rongalishu_c`).
// Puts an event to the agent. It leaves the sequence as it was: only notices move it.
pub fn event(row: &mut [u64], e: Event) -> u8
    ensures value { result ≡ row_event row.old e }
    ensures row_after { row.new ≡ row_after_event row.old e }
{
    told(entered(row, e))
}
