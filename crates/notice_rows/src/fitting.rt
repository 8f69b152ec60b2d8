// Whether the numbers of a row fit the fields of its kind: tests by the kind, with no look at the field table.

ghost use Rattle.std.specs.Prelude.{◌≡◌, length};
ghost use Rattle.notice_fields.specs.Fields.{rows};
ghost use Rattle.notice_rows.specs.Rows.{is_notice_row};
ghost use Rattle.notice_rows.specs.inner.ByKind.{open_fits, data_fits};

use notice::{CHANGE, CLOSE, LIFT, OPEN, SKIP};
use notice_fields::fields::{CAP, COUNT, FLOOR, KIND, LENGTH, SEQUENCE, TITLE};
use rules::within;

// The first number that one byte does not hold, and that four do not.
const PAST_BYTE: u64 = 1 << 8;

const PAST_FOUR: u64 = 1 << 32;

// An opening's own numbers fit, beside the rest.
fn open_fits(length: u64, floor: u64, cap: u64, count: u64, rest: bool) -> bool
    ensures { result ≡ open_fits length floor cap count rest }
{
    count < PAST_BYTE && cap < PAST_BYTE && floor < PAST_BYTE && length < PAST_FOUR && rest
}

// A kind's own numbers fit, beside the rest. What the kind has not may be any number.
#[tactic(auto, unfolding(crate::specs::inner::ByKind::data_fits))]
fn data_fits(kind: u64, length: u64, floor: u64, cap: u64, count: u64, rest: bool) -> bool
    ensures { result ≡ data_fits kind length floor cap count rest }
{
    if kind == OPEN as u64 {
        return open_fits(length, floor, cap, count, rest);
    }
    if kind == CHANGE as u64 {
        return count < PAST_BYTE && rest;
    }
    if kind == SKIP as u64 {
        return count < PAST_BYTE && length < PAST_FOUR && rest;
    }
    within(CLOSE as u64, LIFT as u64, kind) && rest
}

// Whether a row of eight numbers is a notice's.
pub fn is_notice(fields: &[u64]) -> bool
    requires { length fields.now ≡ rows }
    ensures { result ≡ is_notice_row fields.now }
{
    let common = (fields[TITLE] < PAST_BYTE) & (fields[SEQUENCE] < PAST_FOUR);
    data_fits(
        fields[KIND],
        fields[LENGTH],
        fields[FLOOR],
        fields[CAP],
        fields[COUNT],
        common,
    )
}
