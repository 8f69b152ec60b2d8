// What a scan does at a place of a log: it takes a notice or skips one byte.

ghost use Rattle.std.specs.Prelude.{◌≡◌};
ghost use Rattle.notice.specs.Decode.{read_at};
ghost use Rattle.scanning.specs.Scan.{is_later, move_of};

use notice::{Found, Notice, next_in};

// What is done at a place: a notice is taken up to its end, one byte is skipped, or no byte is left.
#[derive(Clone, Copy)]
pub enum Move {
    Take(Notice, usize),
    Skip,
    Stop,
}

// Whether a sequence is larger than that of the last taken notice, if any.
fn is_later(last: Option<u32>, sequence: u32) -> bool
    ensures { result ≡ is_later last sequence }
{
    match last {
        Some(before) => before < sequence,
        None => true,
    }
}

// What is done at a place of a log.
pub fn look(log: &[u8], place: usize, last: Option<u32>) -> Move
    ensures { result ≡ move_of last (read_at log.now place) }
{
    let found = next_in(log, place);
    match found {
        Found::At(n, end) => {
            if is_later(last, n.sequence) {
                Move::Take(n, end)
            } else {
                Move::Skip
            }
        }
        Found::End => Move::Stop,
        Found::Malformed => Move::Skip,
    }
}
