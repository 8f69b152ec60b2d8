// The lines of what the air carried, and of what is wrong with a record's text, written on a page. What has no room is left out.

ghost use Rattle.std.specs.Prelude.{◌≡◌, length, get_or};
ghost use Rattle.text.specs.Output.{Written};
ghost use Rattle.text.specs.Pages.{Puts};
ghost use Rattle.air.specs.Lines.{cell_text, admission_line, total_lines, place_text, record_fault};
ghost use Rattle.air.specs.inner.Steps.{judged_line, marked_lines, air_report};

use air_record::record::{NO_NUMBER, Scan};
use airing::Judgement;
use files::lines::{difference, put_line};
use judging::NOTHING_SEEN;
use rules::DONE;
use text::page::Page;
use words::put_refusal;

// The cell that was missed, or a dash.
fn put_result(page: &mut Page<'_>, cell: u16)
    ensures { Puts page.old (cell_text cell) page.new }
{
    if cell == NOTHING_SEEN {
        page.put(b"-");
    } else {
        page.put_number(cell as u64);
    }
}

fn put_admission(page: &mut Page<'_>, tick: u64, cell: u16)
    ensures { Puts page.old (admission_line tick cell) page.new }
{
    put_line(page, b"", tick, b" ");
    put_result(page, cell);
    page.put(b"\n");
}

fn result_at(row: &[u16], j: usize) -> u16
    ensures { result ≡ get_or row.now j 0 }
{
    row.get(j).copied().unwrap_or(0)
}

// The j-th admission, at a tick, where so many are judged.
fn put_judged(page: &mut Page<'_>, tick: u64, j: usize, row: &[u16], judged: u64)
    ensures { Puts page.old (judged_line row.now judged tick j) page.new }
{
    if (j as u64) < judged {
        put_admission(page, tick, result_at(row, j));
    }
}

// A line for each tick with a mark, until so many are judged.
fn put_admissions(page: &mut Page<'_>, marks: &[u8], row: &[u16], judged: u64)
    ensures { Puts page.old (marked_lines marks.now row.now judged (length marks.now)) page.new }
{
    let mut j = 0;
    for (tick, mark) in marks.iter().enumerate() {
        if *mark == 1 {
            put_judged(page, tick as u64, j, row, judged);
            j += 1;
        }
    }
}

fn put_totals(page: &mut Page<'_>, judgement: Judgement)
    ensures { Puts page.old (total_lines judgement) page.new }
{
    let played = judgement.played;
    let starved = difference(judgement.judged, played);
    put_line(page, b"played through ", played, b"\n");
    put_line(page, b"starved ", starved, b"\n");
    put_line(page, b"outlast the record ", judgement.outlast, b"\n");
}

// A line for each admission that is judged and three in all, or the refusal's one.
pub fn put_report(page: &mut Page<'_>, judgement: Judgement, marks: &[u8], row: &[u16])
    ensures { Puts page.old (air_report judgement marks.now row.now) page.new }
{
    let answer = judgement.answer;
    if answer == DONE {
        put_admissions(page, marks, row, judgement.judged);
        put_totals(page, judgement);
    } else {
        put_refusal(page, answer, 0);
        page.put(b"\n");
    }
}

fn put_place(page: &mut Page<'_>, wrong: &[u8], line: u64, between: &[u8], words: u64)
    ensures { Puts page.old (place_text wrong.now line between.now words) page.new }
{
    put_line(page, wrong, line, between);
    page.put_number(words);
}

// Which of the two faults it is, and where.
fn put_found(page: &mut Page<'_>, scan: Scan)
    ensures { Puts page.old (record_fault scan) page.new }
{
    let line = scan.line;
    let words = scan.words;
    let fault = scan.fault;
    if fault == NO_NUMBER {
        put_place(page, b": no number at line ", line, b", word ", words);
    } else {
        put_place(
            page,
            b": not twelve numbers at line ",
            line,
            b", but ",
            words,
        );
    }
}

// What is wrong with a text of a record, and where.
pub fn put_fault(out: &mut [u8], scan: Scan) -> usize
    ensures { Written out.old 0 (record_fault scan) out.new result }
{
    let mut page = Page::new(out);
    put_found(&mut page, scan);
    page.end()
}
