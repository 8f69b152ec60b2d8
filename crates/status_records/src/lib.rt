// Status over a lent row of records, thin above the flat call (01, "Status"; 02, 7). It has no `requires`; a refusal writes nothing.
#![tactic(auto, unfolding(crate::specs::Records::records_answer))]

ghost use Rattle.std.specs.Prelude.{◌≡◌, map, eqb, length};
ghost use Rattle.rules.specs.Refusals.{pick};
ghost use Rattle.status_records.specs.Records.{record_ids_ok, records_answer, filled_record, record_for};

use questions::asked_verdict;
use rules::{DONE, ID_MAX};
use status::status;
use story::State;

// A title asked for by its id, with the numbers that are filled in.
#[derive(Clone, Copy)]
pub struct Record {
    pub id: u64,
    pub count: u64,
    pub held: u64,
    pub mark: u64,
}

// The records' ids are ids.
fn ids_ok(rows: &[Record]) -> bool
    ensures { result ≡ record_ids_ok rows.now (length rows.now) }
{
    rows.iter().all(|r| r.id <= ID_MAX)
}

// A record filled in, by the flat call over rows of one place.
fn row_for(s: State, time: u64, r: Record) -> Record
    ensures { result ≡ record_for s time r }
{
    let ids = [r.id];
    let mut counts = [r.count];
    let mut held = [r.held];
    let mut marks = [r.mark];
    status(s, time, &ids, &mut counts, &mut held, &mut marks);
    Record {
        id: r.id,
        count: counts[0],
        held: held[0],
        mark: marks[0],
    }
}

// kept: a customer's call gives back 01's number (docs/PROMISES.md, "Public calls").
// Fills in counts, lanes held and marks by id, over a row of records.
pub fn records(s: State, time: u64, rows: &mut [Record]) -> u8
    ensures { (result ≡ records_answer s time rows.old)
        × (rows.new ≡ pick (eqb result 0) (map (λ q. filled_record s time q) rows.old) rows.old) }
{
    if let Err(refusal) = asked_verdict(s, time, ids_ok(rows)) {
        return refusal.number();
    }
    for r in rows.iter_mut() {
        *r = row_for(s, time, *r);
    }
    DONE
}
