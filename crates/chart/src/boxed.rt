// The box that begins at an admission: arguments POOL ID TIME, the log on standard input. No contract can say what is read and written: the
// work is in `log_boxes` and in `complaints`; these functions are safe and end.

use crate::complaints::put_beginning;
use crate::input::time_given;
use files::arguments::number_named;
use files::complaints::write_complaints;
use files::loading::{LOG_ROOM, load_input};
use files::pages::write_page;
use log_boxes::{beginning_of, put_box};
use streams::usage::are_right;
use text::page::Page;
use unheard_io::put_unheard;

// No picture is longer: that of a box by proofs/Fits, that of a log by how it is drawn.
pub const PICTURE_ROOM: usize = 4_999_999;

// The box that was asked for.
#[derive(Clone, Copy)]
struct Asked {
    pool: u64,
    title: u64,
    time: u64,
}

fn show(rt: &HostRuntime, asked: Asked, log: &[u8], out: &mut [u8]) {
    let size = put_box(out, asked.pool, log, asked.title, asked.time);
    write_page(rt, out, size);
}

fn complain_beside(rt: &HostRuntime, asked: Asked, log: &[u8]) {
    let mut out = [0u8; 4_096];
    let found = beginning_of(asked.pool, log, asked.title, asked.time);
    let mut page = Page::new(&mut out);
    put_unheard(&mut page, asked.pool, log);
    put_beginning(&mut page, asked.title, asked.time, found);
    let size = page.end();
    write_complaints(rt, &out, size);
}

fn with_rooms(rt: &HostRuntime, asked: Asked, log: &mut [u8], out: &mut [u8]) {
    if let Some(size) = load_input(rt, log) {
        show(rt, asked, &log[..size], out);
        complain_beside(rt, asked, &log[..size]);
    }
}

// The rooms are lent as arrays first, whose lengths then need no proof.
fn lend(rt: &HostRuntime, asked: Asked, log: &mut [u8; LOG_ROOM], out: &mut [u8; PICTURE_ROOM]) {
    with_rooms(rt, asked, log, out);
}

// It, its numbers tested in their order, or that standard error says what is wrong.
fn box_given(rt: &HostRuntime) -> Option<Asked> {
    let pool = number_named(rt, 1, b"POOL")?;
    let title = number_named(rt, 2, b"ID")?;
    let time = time_given(rt, 3)?;
    Some(Asked { pool, title, time })
}

// How many arguments there are is tested first, then the numbers, then the log.
pub fn draw(rt: &HostRuntime, usage: &[u8]) {
    if are_right(rt, 1, 4, 4, usage) {
        let Some(asked) = box_given(rt) else {
            return;
        };
        let mut log = [0u8; LOG_ROOM];
        let mut out = [0u8; PICTURE_ROOM];
        lend(rt, asked, &mut log, &mut out);
    }
}
