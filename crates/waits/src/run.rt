// The program: arguments POOL TITLE LOG ARRIVALS, the last two file names. No contract can say what is read and written: the
// work is in the report, in `arrivals`, in `lines` and in `complaints`; these functions are safe and end.

use crate::arrivals::take_text;
use crate::complaints::put_complaints;
use crate::lines::put_report;
use files::arguments::pool_and_title;
use files::complaints::{complain_at, write_complaints};
use files::loading::{LOG_ROOM, load_both};
use files::pages::write_page;
use waiting::{Report, report_of};

// One byte more than a text may have.
const TEXT_ROOM: usize = 65_537;

// As many numbers as a text of arrivals can have, with a byte between each two.
const ROW_ROOM: usize = 32_768;

fn show(rt: &HostRuntime, report: Report) {
    let mut out = [0u8; 4_096];
    let size = put_report(&mut out, report);
    write_page(rt, &out, size);
}

fn complain_beside(rt: &HostRuntime, pool: u64, log: &[u8], title: u64, arrivals: usize) {
    let mut out = [0u8; 4_096];
    let size = put_complaints(&mut out, pool, log, title, arrivals);
    write_complaints(rt, &out, size);
}

// The report, once every word of the arrivals is a number.
fn tell(rt: &HostRuntime, pool: u64, title: u64, log: &[u8], text: &[u8]) {
    let mut row = [0u64; ROW_ROOM];
    let scan = take_text(text, &mut row);
    if let Some(place) = scan.wrong {
        complain_at(rt, b"ARRIVALS", b": no number at byte ", place);
        return;
    }
    let count = scan.count;
    show(rt, report_of(pool, log, title, &row[..count]));
    complain_beside(rt, pool, log, title, count);
}

fn with_rooms(rt: &HostRuntime, pool: u64, title: u64, log: &mut [u8], text: &mut [u8]) {
    if let Some(read) = load_both(rt, log, b"ARRIVALS", text) {
        tell(rt, pool, title, &log[..read.log], &text[..read.own]);
    }
}

// The rooms are lent as arrays first, whose lengths then need no proof.
fn lend(
    rt: &HostRuntime,
    pool: u64,
    title: u64,
    log: &mut [u8; LOG_ROOM],
    text: &mut [u8; TEXT_ROOM],
) {
    with_rooms(rt, pool, title, log, text);
}

// Arguments are tested in their order, then the files.
pub fn run(rt: &HostRuntime) {
    let Some((pool, title)) = pool_and_title(rt, b"waits POOL TITLE LOG ARRIVALS") else {
        return;
    };
    let mut log = [0u8; LOG_ROOM];
    let mut text = [0u8; TEXT_ROOM];
    lend(rt, pool, title, &mut log, &mut text);
}
