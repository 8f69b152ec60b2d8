// A record of JOURNAL.lock: a line `PROCESS DESCRIPTOR BOOT` says which process opened the journal, under which descriptor, and in
// which run of the machine. A line that is none is passed over, so that damage costs only itself.

ghost use Rattle.std.specs.Prelude.{◌≡◌};
ghost use Rattle.text.specs.Output.{Written};
ghost use Rattle.text.specs.Pages.{Puts};
ghost use Rattle.journal_files.specs.Records.{record_text};

use files::arguments::same;
use files::lines::put_line;
use text::bytes::{Sort, run_end};
use text::numbers::spelt;
use text::page::Page;

#[derive(Clone, Copy)]
pub struct Record {
    pub process: u64,
    pub descriptor: u64,
}

// Whether a text goes on from a place with a blank and these words, and nothing behind them.
fn ends_in(text: &[u8], at: usize, words: &[u8]) -> bool {
    at < text.len() && text[at] == b' ' && same(&text[at + 1..], words)
}

// The record of a line, where it is of this run of the machine: a process of an earlier one is gone.
pub fn record_in(line: &[u8], boot: &[u8]) -> Option<Record> {
    let blank = run_end(line, 0, Sort::Digit);
    if line.len() <= blank || line[blank] != b' ' {
        return None;
    }
    let end = run_end(line, blank + 1, Sort::Digit);
    if !ends_in(line, end, boot) {
        return None;
    }
    Some(Record {
        process: spelt(line, 0).value,
        descriptor: spelt(line, blank + 1).value,
    })
}

// A record between newlines, so that it is a line of its own whatever stands before it.
fn put_fields(page: &mut Page<'_>, record: Record, boot: &[u8])
    ensures { Puts page.old (record_text «record» boot.now) page.new }
{
    put_line(page, b"\n", record.process, b" ");
    put_line(page, b"", record.descriptor, b" ");
    page.put(boot);
    page.put(b"\n");
}

// A record from a row's start on.
pub fn put_record(out: &mut [u8], record: Record, boot: &[u8]) -> usize
    ensures { Written out.old 0 (record_text «record» boot.now) out.new result }
{
    let mut page = Page::new(out);
    put_fields(&mut page, record, boot);
    page.end()
}
