// The lines of the report, each behind what stands on a page. What has no room is left out.
#![tactic(auto)]

ghost use Rattle.text.specs.Output.{Written};
ghost use Rattle.text.specs.Pages.{Puts};
ghost use Rattle.scanning.specs.inner.Steps.{Counts};
ghost use Rattle.salvage_lines.specs.Lines.{two_numbers, stretch_line, follows_line, gap_line, total_line, open_line, end_text};
ghost use Rattle.salvage_lines.specs.Report.{said_in};

use scanning::steps::{Progress, is_open};
use text::page::Page;

// Room for the two lines of the end: each has three words of 10 bytes at most and two numbers of 20 digits at most.
pub const END_ROOM: usize = 140;

// Two numbers among words.
fn put_two(page: &mut Page<'_>, name: &[u8], n: u64, amid: &[u8], m: u64, end: &[u8])
    ensures { Puts page.old (two_numbers name.now n amid.now m end.now) page.new }
{
    page.put(name);
    page.put_number(n);
    page.put(amid);
    page.put_number(m);
    page.put(end);
}

// A stretch that has ended.
pub fn put_stretch(page: &mut Page<'_>, start: u64, size: u64)
    ensures { Puts page.old (stretch_line start size) page.new }
{
    put_two(page, b"skipped ", start, b" ", size, b"\n");
}

// A sequence behind another, if it is not the next.
fn put_follows(page: &mut Page<'_>, sequence: u32, last: u32)
    ensures { Puts page.old (follows_line sequence last) page.new }
{
    let s = sequence as u64;
    let l = last as u64;
    if s != l + 1 {
        put_two(page, b"sequence ", s, b" follows ", l, b"\n");
    }
}

// The gap that a stretch left in the sequences, if it left one.
fn put_gap(page: &mut Page<'_>, before: Option<u32>, behind: Option<u32>)
    ensures { Puts page.old (gap_line before behind) page.new }
{
    match before {
        None => {}
        Some(last) => match behind {
            None => {}
            Some(sequence) => put_follows(page, sequence, last),
        },
    }
}

// What one step tells: where a notice is taken at the end of a stretch, the stretch and the gap that it left.
pub fn put_said(page: &mut Page<'_>, p: Progress, next: Progress)
    requires { Counts p }
    ensures { Puts page.old (said_in p next) page.new }
{
    if p.notices < next.notices && is_open(p) {
        put_stretch(page, p.start as u64, p.size as u64);
        put_gap(page, p.last, next.last);
    }
}

// How much was taken of all the input.
fn put_total(page: &mut Page<'_>, notices: u64, bytes: u64)
    ensures { Puts page.old (total_line notices bytes) page.new }
{
    put_two(page, b"taken ", notices, b" notices, ", bytes, b" bytes\n");
}

// The stretch that ends at the place, if one does.
fn put_open(page: &mut Page<'_>, p: Progress)
    requires { Counts p }
    ensures { Puts page.old (open_line p) page.new }
{
    if is_open(p) {
        put_stretch(page, p.start as u64, p.size as u64);
    }
}

// The stretch that ends there, and how much was taken.
fn put_last(page: &mut Page<'_>, p: Progress)
    requires { Counts p }
    ensures { Puts page.old (end_text p) page.new }
{
    put_open(page, p);
    put_total(page, p.notices as u64, p.bytes as u64);
}

// What the report says at the end of the input, from the row's start on.
pub fn put_end(out: &mut [u8], p: Progress) -> usize
    requires { Counts p }
    ensures { Written out.old 0 (end_text p) out.new result }
{
    let mut page = Page::new(out);
    put_last(&mut page, p);
    page.end()
}
