// What is told of a log of notices: how long people waited, what the air carried, at which ticks boxes could begin, and what
// is left of a damaged one.

ghost use Rattle.std.specs.Prelude.{◌≡◌};
ghost use Rattle.airing.specs.Air.{ticks_answer, ticks_leaves};
ghost use Rattle.rongalishu.specs.Reports.{WaitsGiven, AirGiven, SalvageGiven};

// The report of waits: arrivals, admitted, longest wait and sum of waits.
#[unsafe(no_mangle)]
pub extern "C" fn rl_waits_row(
    pool: u64,
    title: u64,
    log: &[u8],
    arrivals: &[u64],
    report: &mut [u64],
) -> u8
    ensures { WaitsGiven pool log.now title arrivals.now report.old result report.new }
{
    rongalishu::reports::rl_waits_row(pool, title, log, arrivals, report)
}

// What the air carried: admissions judged, played through, and those that outlast the record.
#[unsafe(no_mangle)]
pub extern "C" fn rl_air_row(
    pool: u64,
    title: u64,
    log: &[u8],
    record: &[u16],
    row: &mut [u16],
    report: &mut [u64],
) -> u8
    ensures { AirGiven pool log.now title «record».now row.old report.old result
        row.new report.new }
{
    rongalishu::reports::rl_air_row(pool, title, log, record, row, report)
}

// Marks each tick of a title's latest opening with 1 where it is an admission.
#[unsafe(no_mangle)]
pub extern "C" fn rl_admissions_row(pool: u64, title: u64, log: &[u8], marks: &mut [u8]) -> u8
    ensures { (result ≡ ticks_answer pool log.now title)
        × (marks.new ≡ ticks_leaves pool log.now title marks.old) }
{
    rongalishu::reports::rl_admissions_row(pool, title, log, marks)
}

// What is left of a damaged log: notices taken, their bytes, and stretches skipped.
#[unsafe(no_mangle)]
pub extern "C" fn rl_salvage_row(
    log: &[u8],
    area: &mut [u8],
    stretches: &mut [u64],
    report: &mut [u64],
) -> u8
    ensures { SalvageGiven log.now area.old stretches.old report.old result
        area.new stretches.new report.new }
{
    rongalishu::reports::rl_salvage_row(log, area, stretches, report)
}
