// What is told of a log of notices: how long people waited, what the air carried, at which ticks boxes could begin, and what
// is left of a damaged one.

ghost use Rattle.std.specs.Prelude.{◌≡◌};
ghost use Rattle.airing.specs.Air.{ticks_answer, ticks_leaves};
ghost use Rattle.rongalishu.specs.Reports.{WaitsGiven, AirGiven, SalvageGiven};

use crate::results::give;
use rules::WRONG_ROWS;

// How many numbers a report has.
const WAITS_PLACES: usize = 4;

const AIR_PLACES: usize = 3;

const SALVAGE_PLACES: usize = 3;

// The report of waits: arrivals, admitted, longest wait and sum of waits.
pub fn rl_waits_row(pool: u64, title: u64, log: &[u8], arrivals: &[u64], report: &mut [u64]) -> u8
    ensures { WaitsGiven pool log.now title arrivals.now report.old result report.new }
{
    if report.len() < WAITS_PLACES {
        return WRONG_ROWS;
    }
    let told = waiting::report_of(pool, log, title, arrivals);
    let waits = told.waits;
    let numbers = [told.arrivals, waits.admitted, waits.longest, waits.sum];
    give(told.answer, &numbers, report)
}

// What the air carried: admissions judged, played through, and those that outlast the record.
pub fn rl_air_row(
    pool: u64,
    title: u64,
    log: &[u8],
    record: &[u16],
    row: &mut [u16],
    report: &mut [u64],
) -> u8
    ensures { AirGiven pool log.now title «record».now row.old report.old result
        row.new report.new }
{
    if report.len() < AIR_PLACES {
        return WRONG_ROWS;
    }
    let told = airing::air(pool, log, title, record, row);
    give(
        told.answer,
        &[told.judged, told.played, told.outlast],
        report,
    )
}

// Marks each tick of a title's latest opening with 1 where it is an admission.
pub fn rl_admissions_row(pool: u64, title: u64, log: &[u8], marks: &mut [u8]) -> u8
    ensures { (result ≡ ticks_answer pool log.now title)
        × (marks.new ≡ ticks_leaves pool log.now title marks.old) }
{
    airing::admissions(pool, log, title, marks)
}

// What is left of a damaged log: notices taken, their bytes, and stretches skipped.
pub fn rl_salvage_row(log: &[u8], area: &mut [u8], stretches: &mut [u64], report: &mut [u64]) -> u8
    ensures { SalvageGiven log.now area.old stretches.old report.old result
        area.new stretches.new report.new }
{
    if report.len() < SALVAGE_PLACES {
        return WRONG_ROWS;
    }
    let told = salvaging::salvage(log, area, stretches);
    give(
        told.answer,
        &[
            told.notices as u64,
            told.bytes as u64,
            told.stretches as u64,
        ],
        report,
    )
}
