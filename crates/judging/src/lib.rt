// What a record of the air shows, and what becomes of the boxes that begin in it (02, 13). These functions are for the crate
// above, and say in a `requires` what they build on.
#![tactic(auto)]

pub mod next;
pub mod results;
pub mod telling;

ghost use Rattle.std.specs.Prelude.{◌≡◌, length, replicate};
ghost use Rattle.judging.specs.Record.{ticks_max};
ghost use Rattle.judging.specs.Judge.{Judgeable, Judges};

use rules::LANE_PLACES;
use story::Title;

// The most ticks of a record.
pub const TICKS_MAX: usize = 4_096;

// Nothing was seen on a lane, or no cell was missed.
pub const NOTHING_SEEN: u16 = 65_535;

// How many admissions were judged, how many of those played through, and how many outlast the record.
#[derive(Clone, Copy)]
pub struct Counts {
    pub judged: u64,
    pub played: u64,
    pub outlast: u64,
}

// A mark for each tick of a record, none set.
pub fn blank_marks() -> [u8; TICKS_MAX]
    ensures { (result ≡ replicate ticks_max 0) × (length result ≡ ticks_max) }
{
    [0; TICKS_MAX]
}

// Judges the admissions of a title by a record of its lanes, tick by tick from its opening on; a mark is 1 where a tick is an
// admission. The row gets for each whose play ticks lie in the record the lowest cell of the film that it missed.
pub fn judge(t: Title, air: &[u16], marks: &[u8], row: &mut [u16]) -> Counts
    requires { Judgeable t air.now marks.now row.old }
    ensures { Judges t air.now marks.now row.old row.new result }
{
    let length = t.film.length;
    let ticks = air.len() / LANE_PLACES;
    let cells = grid::pow2(t.film.cap) as usize;
    let tick = scheme::tick(scheme::PADDED, length, t.film.floor, t.film.cap);
    let results = results::results(air, cells, length, tick);
    telling::tell(&results, marks, cells, ticks, row)
}
