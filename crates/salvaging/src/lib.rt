// What is left of a damaged log of notices (02, request 8): the call over lent rows.
// No public function of this file has a `requires`: any log and any rooms have an answer.
#![tactic(auto)]

ghost use Rattle.std.specs.Prelude.{◌≡◌};
ghost use Rattle.salvaging.specs.Rows.{no_room, Salvages};
ghost use Rattle.salvaging.specs.Pours.{salvaged_to as counts};

use rows::{fill, measure};
use rules::{DONE, WRONG_ROWS};
use scanning::steps::Progress;

pub mod rows;

// What the call gives back: its answer, how many notices were taken, how many bytes they have, and how many stretches were
// skipped. Beside a refusal the counts are 0.
#[derive(Clone, Copy)]
pub struct Salvaged {
    pub answer: u8,
    pub notices: usize,
    pub bytes: usize,
    pub stretches: usize,
}

// The places of the row that a stretch takes: its start and its length.
const STRETCH_CELLS: usize = 2;

fn refused() -> Salvaged
    ensures { result ≡ no_room }
{
    Salvaged {
        answer: WRONG_ROWS,
        notices: 0,
        bytes: 0,
        stretches: 0,
    }
}

fn counted(p: Progress) -> Salvaged
    ensures { result ≡ counts p }
{
    Salvaged {
        answer: DONE,
        notices: p.notices,
        bytes: p.bytes,
        stretches: p.stretches,
    }
}

// The notices that are taken of a log go to the start of an area, unchanged, and the stretches that are skipped to the start of
// a row, start and length of each; later places of both stay. 10 where either is too short, and both stay as they were.
pub fn salvage(log: &[u8], area: &mut [u8], row: &mut [u64]) -> Salvaged
    ensures { Salvages log.now area.old row.old result
        area.new row.new }
{
    let p = measure(log);
    if area.len() < p.bytes {
        return refused();
    }
    if row.len() / STRETCH_CELLS < p.stretches {
        return refused();
    }
    fill(log, area, row);
    counted(p)
}
