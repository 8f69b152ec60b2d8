// The picture of a whole log: argument POOL, or none, the log on standard input. No contract can say what is read and written: the work is in
// `charts`; these functions are safe and end.

use crate::boxed::PICTURE_ROOM;
use charts::put_chart;
use files::arguments::pool_or;
use files::loading::{LOG_ROOM, load_input};
use files::pages::write_page;

// 01's pool, where none is given.
const USUAL_POOL: u64 = 8;

fn show(rt: &HostRuntime, pool: u64, log: &[u8], out: &mut [u8]) {
    let size = put_chart(out, pool, log);
    write_page(rt, out, size);
}

fn with_rooms(rt: &HostRuntime, pool: u64, log: &mut [u8], out: &mut [u8]) {
    if let Some(size) = load_input(rt, log) {
        show(rt, pool, &log[..size], out);
    }
}

// The rooms are lent as arrays first, whose lengths then need no proof.
fn lend(rt: &HostRuntime, pool: u64, log: &mut [u8; LOG_ROOM], out: &mut [u8; PICTURE_ROOM]) {
    with_rooms(rt, pool, log, out);
}

// How many arguments there are is tested first, then the pool, then the log.
pub fn draw(rt: &HostRuntime, usage: &[u8]) {
    let Some(pool) = pool_or(rt, USUAL_POOL, usage) else {
        return;
    };
    let mut log = [0u8; LOG_ROOM];
    let mut out = [0u8; PICTURE_ROOM];
    lend(rt, pool, &mut log, &mut out);
}
