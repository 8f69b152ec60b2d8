// Lines of what was found: numbers between words, each line composed first and written at once.

use files::lines::put_line;
use files::pages::within_row;
use streams::ports::{Port, tell};
use text::page::Page;
use words::put_meaning;

fn say(rt: &HostRuntime, port: Port, out: &[u8], end: usize) {
    let n = within_row(end, out);
    tell(rt, port, &out[..n]);
}

pub fn say_one(rt: &HostRuntime, port: Port, name: &[u8], n: usize, end: &[u8]) {
    let mut out = [0u8; 4_096];
    let mut page = Page::new(&mut out);
    put_line(&mut page, name, n as u64, end);
    let end = page.end();
    say(rt, port, &out, end);
}

pub fn say_two(
    rt: &HostRuntime,
    port: Port,
    name: &[u8],
    n: usize,
    amid: &[u8],
    m: usize,
    end: &[u8],
) {
    let mut out = [0u8; 4_096];
    let mut page = Page::new(&mut out);
    put_line(&mut page, name, n as u64, amid);
    put_line(&mut page, b"", m as u64, end);
    let end = page.end();
    say(rt, port, &out, end);
}

// How many notices a journal has, and the sequence and the time of the last.
pub fn say_heard(rt: &HostRuntime, port: Port, notices: usize, sequence: u64, time: u64) {
    let mut out = [0u8; 4_096];
    let mut page = Page::new(&mut out);
    put_line(
        &mut page,
        b"JOURNAL: ",
        notices as u64,
        b" notices, last sequence ",
    );
    put_line(&mut page, b"", sequence, b", time ");
    put_line(&mut page, b"", time, b"\n");
    let end = page.end();
    say(rt, port, &out, end);
}

// A notice's place and number in the journal, and its refusal in words.
pub fn say_refused(rt: &HostRuntime, port: Port, place: usize, number: usize, answer: u8) {
    let mut out = [0u8; 4_096];
    let mut page = Page::new(&mut out);
    put_line(&mut page, b"? JOURNAL: byte ", place as u64, b", notice ");
    put_line(&mut page, b"", number as u64, b": ");
    put_meaning(&mut page, answer);
    page.put(b" (salvage writes what can be kept)\n");
    let end = page.end();
    say(rt, port, &out, end);
}
