// A notice put to a lent row, in its turn: 11, 12, and then its event's answer. An accepted one moves the sequence.

ghost use Rattle.std.specs.Prelude.{suc, ◌≡◌, eqb, length};
ghost use Rattle.rules.specs.Told.{told};
ghost use Rattle.notice.specs.declared.Reading.TheVariants as reading;
ghost use Rattle.notice.specs.Decode.{read_of};
ghost use Rattle.agent_rows.specs.Layout.{row_length};
ghost use Rattle.agent_rows.specs.Packed.{unpacked};
ghost use Rattle.row_calls.specs.Answers.{on_sound, row_reading, row_notice, row_after_notice};
ghost use Rattle.row_calls.specs.inner.Steps.{Tested, TakesNotice};

use crate::events::put_event;
use agent::event_of;
use agent_rows::testing::row_ok;
use agent_rows::{ROW_LENGTH, SEQUENCE_AT};
use notice::{Notice, Reading};
use rules::OUT_OF_TURN;
use rules::answers::{Refusal, told};

// The event of a notice in its turn, on a row that was tested; the notice's sequence is the row's from then on.
fn follow(row: &mut [u64], n: Notice) -> Result<(), Refusal>
    requires tested { Tested row.old }
    requires sequence_value { n.sequence ≡ suc (unpacked row.old).sequence }
    ensures { (told result ≡ row_notice row.old (reading.Whole n)) × (row.new ≡ row_after_notice row.old (reading.Whole n)) }
{
    put_event(row, event_of(n))?;
    row[SEQUENCE_AT] = u64::from(n.sequence);
    Ok(())
}

// Whether a notice with this sequence is the next in turn.
fn is_next(row: &[u64], sequence: u32) -> bool
    requires { length row.now ≡ row_length }
    ensures { result ≡ eqb sequence (suc (unpacked row.now).sequence) }
{
    sequence != 0 && row[SEQUENCE_AT] == u64::from(sequence) - 1
}

// A notice: its turn, and then the row's numbers.
fn heed(row: &mut [u64], n: Notice) -> Result<(), Refusal>
    requires { length row.old ≡ row_length }
    ensures { (told result ≡ row_notice row.old (reading.Whole n)) × (row.new ≡ row_after_notice row.old (reading.Whole n)) }
{
    if !is_next(row, n.sequence) {
        return Err(Refusal::OutOfTurn);
    }
    if !row_ok(row) {
        return Err(Refusal::OutsideLimits);
    }
    follow(row, n)
}

// The same on a row that was tested. For crates that play a log: what notices make of a fresh agent stays within its limits, and is not
// tested at each.
pub fn heed_tested(row: &mut [u64], n: Notice) -> u8
    requires { Tested row.old }
    ensures { TakesNotice row.old n result row.new }
{
    if is_next(row, n.sequence) {
        return told(follow(row, n));
    }
    // kept: reports of logs keep the number of each notice's answer (`logs` specs, `TakesNotice`)
    OUT_OF_TURN
}

// One notice's bytes, and nothing after them, on any row.
fn taken(row: &mut [u64], bytes: &[u8]) -> Result<(), Refusal>
    ensures { (told result ≡ row_notice row.old (read_of bytes.now))
        × (row.new ≡ row_after_notice row.old (read_of bytes.now)) }
{
    if row.len() != ROW_LENGTH {
        return Err(Refusal::WrongRows);
    }
    let read = notice::read(bytes);
    match read {
        Reading::Whole(n) => heed(row, n),
        Reading::Malformed => Err(Refusal::Malformed),
    }
}

// kept: a customer's call gives back 01's number (docs/PROMISES.md, "Public calls"; `rongalishu_c`).
// Takes one notice's bytes, and nothing after them.
pub fn take(row: &mut [u64], bytes: &[u8]) -> u8
    ensures { (result ≡ row_notice row.old (read_of bytes.now))
        × (row.new ≡ row_after_notice row.old (read_of bytes.now)) }
{
    told(taken(row, bytes))
}
