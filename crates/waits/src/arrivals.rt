// Arrivals in a text: decimal numbers with spaces, tabs, carriage returns or newlines between.

ghost use Rattle.std.specs.Prelude.{◌≡◌};
ghost use Rattle.waits.specs.Arrivals.{is_gap, arrivals_so_far, ending_arrival, taking_arrival, all_arrivals};

use text::bytes::{is_digit, is_separator};
use text::numbers::{Number, grow};
use text::output::put_value;

// A text as far as it was read: how many numbers of it are in the row; the number being spelt, if one is; and which byte was the first
// that was neither in a number nor between two, counted from 1, if one was.
#[derive(Clone, Copy)]
pub struct ArrivalsScan {
    pub count: usize,
    pub spelt: Option<u64>,
    pub wrong: Option<usize>,
}

fn is_gap(b: u8) -> bool
    ensures { result ≡ is_gap b }
{
    b == b'\n' || is_separator(b)
}

// A word ends: the number that was being spelt, if one was, goes into the row.
fn end_number(scan: ArrivalsScan, row: &mut [u64]) -> ArrivalsScan
    ensures { arrivals_so_far row.new result ≡ ending_arrival (arrivals_so_far row.old scan) }
{
    let Some(value) = scan.spelt else {
        return scan;
    };
    ArrivalsScan {
        count: put_value(row, scan.count, value),
        spelt: None,
        wrong: scan.wrong,
    }
}

// One byte more, which stands at a place of the text.
fn take_byte(scan: ArrivalsScan, place: usize, b: u8, row: &mut [u64]) -> ArrivalsScan
    ensures { arrivals_so_far row.new result ≡ taking_arrival (arrivals_so_far row.old scan) place b }
{
    if scan.wrong.is_some() {
        return scan;
    }
    let mut next = scan;
    if is_digit(b) {
        let n = Number {
            value: scan.spelt.unwrap_or(0),
            over: false,
        };
        next.spelt = Some(grow(n, b).value);
        return next;
    }
    if is_gap(b) {
        return end_number(scan, row);
    }
    next.wrong = Some(place);
    next
}

// All of a text, its numbers into the start of a row.
pub fn take_text(text: &[u8], row: &mut [u64]) -> ArrivalsScan
    ensures { arrivals_so_far row.new result ≡ all_arrivals text.now row.old }
{
    let mut scan = ArrivalsScan {
        count: 0,
        spelt: None,
        wrong: None,
    };
    for (i, b) in text.iter().enumerate() {
        scan = take_byte(scan, i + 1, *b, row);
    }
    end_number(scan, row)
}
