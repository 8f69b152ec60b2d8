// The program: arguments POOL TITLE LOG RECORD, the last two file names. No contract can say what is read and written: the work is
// in `air_record`, in `report` and in `complaints`; these functions are safe and end.

use crate::complaints::put_complaints;
use crate::lines::put_fault;
use crate::report::put_air;
use air_record::record::{SOUND, Scan, take_text};
use files::arguments::pool_and_title;
use files::complaints::write_complaints;
use files::loading::{LOG_ROOM, load_both};
use files::pages::{within_row, write_page};
use judging::TICKS_MAX;
use rules::LANE_PLACES;
use streams::usage::complain;

// One byte more than a text may have: 512 KiB.
const TEXT_ROOM: usize = 524_289;

// The numbers of one tick more than a record may have, which shows it to be too long.
const NUMBERS_ROOM: usize = (TICKS_MAX + 1) * LANE_PLACES;

fn show(rt: &HostRuntime, pool: u64, title: u64, log: &[u8], record: &[u16]) {
    let mut out = [0u8; 65_536];
    let size = put_air(&mut out, pool, log, title, record);
    write_page(rt, &out, size);
}

fn complain_beside(
    rt: &HostRuntime,
    pool: u64,
    title: u64,
    log: &[u8],
    record: &[u16],
    text: &[u8],
) {
    let mut out = [0u8; 4_096];
    let size = put_complaints(&mut out, pool, log, title, record, text);
    write_complaints(rt, &out, size);
}

fn complain_of_fault(rt: &HostRuntime, scan: Scan) {
    let mut out = [0u8; 4_096];
    let size = put_fault(&mut out, scan);
    let n = within_row(size, &out);
    complain(rt, b"RECORD", &out[..n]);
}

// What the record shows, once every line of its text is a tick.
fn tell(rt: &HostRuntime, pool: u64, title: u64, log: &[u8], text: &[u8]) {
    let mut record = [0u16; NUMBERS_ROOM];
    let scan = take_text(text, &mut record);
    if scan.fault == SOUND {
        let count = scan.count;
        show(rt, pool, title, log, &record[..count]);
        complain_beside(rt, pool, title, log, &record[..count], text);
        return;
    }
    complain_of_fault(rt, scan);
}

fn with_rooms(rt: &HostRuntime, pool: u64, title: u64, log: &mut [u8], text: &mut [u8]) {
    if let Some(read) = load_both(rt, log, b"RECORD", text) {
        tell(rt, pool, title, &log[..read.log], &text[..read.own]);
    }
}

// The rooms are lent as arrays first, whose lengths then need no proof.
fn lend(
    rt: &HostRuntime,
    pool: u64,
    title: u64,
    log: &mut [u8; LOG_ROOM],
    text: &mut [u8; TEXT_ROOM],
) {
    with_rooms(rt, pool, title, log, text);
}

// Arguments are tested in their order, then the files.
pub fn run(rt: &HostRuntime) {
    let Some((pool, title)) = pool_and_title(rt, b"air POOL TITLE LOG RECORD") else {
        return;
    };
    let mut log = [0u8; LOG_ROOM];
    let mut text = [0u8; TEXT_ROOM];
    lend(rt, pool, title, &mut log, &mut text);
}
