// The program: arguments POOL ID LOG FROM TICKS, the third a file name. No contract can say what is read and written: the work is in
// `playouts` and in `complaints`; these functions are safe and end.

use crate::complaints::put_complaints;
use files::arguments::number_named;
use files::complaints::write_complaints;
use files::loading::{LOG_ROOM, load_log};
use files::pages::write_page;
use playouts::put_playout;
use streams::usage::count_is;

// Room for every text: `playouts` proofs/Fits.
const TEXT_ROOM: usize = 1_048_576;

// The numbers that were given.
#[derive(Clone, Copy)]
struct Numbers {
    pool: u64,
    title: u64,
    from: u64,
    ticks: u64,
}

fn show(rt: &HostRuntime, given: Numbers, log: &[u8], out: &mut [u8]) {
    let size = put_playout(out, given.pool, log, given.title, given.from, given.ticks);
    write_page(rt, out, size);
}

fn complain_beside(rt: &HostRuntime, given: Numbers, log: &[u8]) {
    let mut out = [0u8; 4_096];
    let size = put_complaints(
        &mut out,
        given.pool,
        log,
        given.title,
        given.from,
        given.ticks,
    );
    write_complaints(rt, &out, size);
}

fn with_rooms(rt: &HostRuntime, given: Numbers, log: &mut [u8], out: &mut [u8]) {
    if let Some(size) = load_log(rt, log) {
        show(rt, given, &log[..size], out);
        complain_beside(rt, given, &log[..size]);
    }
}

// The rooms are lent as arrays first, whose lengths then need no proof.
fn lend(rt: &HostRuntime, given: Numbers, log: &mut [u8; LOG_ROOM], out: &mut [u8; TEXT_ROOM]) {
    with_rooms(rt, given, log, out);
}

// Those that were given, tested in their order, or that standard error says what is wrong.
fn numbers_given(rt: &HostRuntime) -> Option<Numbers> {
    let pool = number_named(rt, 1, b"POOL")?;
    let title = number_named(rt, 2, b"ID")?;
    let from = number_named(rt, 4, b"FROM")?;
    let ticks = number_named(rt, 5, b"TICKS")?;
    Some(Numbers {
        pool,
        title,
        from,
        ticks,
    })
}

// How many arguments there are is tested first, then the numbers, then the file.
pub fn run(rt: &HostRuntime) {
    if count_is(rt, 6, b"playout POOL ID LOG FROM TICKS") {
        let Some(given) = numbers_given(rt) else {
            return;
        };
        let mut log = [0u8; LOG_ROOM];
        let mut out = [0u8; TEXT_ROOM];
        lend(rt, given, &mut log, &mut out);
    }
}
