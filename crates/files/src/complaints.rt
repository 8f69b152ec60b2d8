// Lines of complaints: a row of them, and one that ends in a place.

use crate::pages::within_row;
use streams::ports::{Port, tell};
use streams::usage::complain;
use text::page::Page;

// Lines of complaints, in a row that was written from its start up to a place.
pub fn write_complaints(rt: &HostRuntime, row: &[u8], place: usize) {
    let n = within_row(place, row);
    tell(rt, Port::Errors, &row[..n]);
}

// What is wrong with what, and the number of the place behind it.
pub fn complain_at(rt: &HostRuntime, what: &[u8], wrong: &[u8], place: usize) {
    let mut out = [0u8; 4_096];
    let mut page = Page::new(&mut out);
    page.put(wrong);
    page.put_number(place as u64);
    let n = within_row(page.end(), &out);
    complain(rt, what, &out[..n]);
}
