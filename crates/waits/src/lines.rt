// The lines of the report, written at the start of a lent row. What has no room is left out.

ghost use Rattle.std.specs.Prelude.{◌≡◌};
ghost use Rattle.text.specs.Output.{page, puts};
ghost use Rattle.text.specs.Pages.{Puts};
ghost use Rattle.waits.specs.Lines.{count_lines, wait_lines, nearest, mean_line, report_text};

use admissions::Waits;
use files::lines::{difference, put_line};
use rules::DONE;
use text::page::Page;
use waiting::Report;
use words::put_refusal;

// A sum over so many, to the nearest, halves up; 0 over none.
fn mean(sum: u64, n: u64) -> u64
    ensures { result ≡ nearest sum n }
{
    if n == 0 {
        return 0;
    }
    let whole = sum / n;
    let rest = sum % n;
    if rest < n - n / 2 {
        return whole;
    }
    whole + 1
}

fn put_counts(page: &mut Page<'_>, arrivals: u64, admitted: u64)
    ensures { Puts page.old (count_lines arrivals admitted) page.new }
{
    put_line(page, b"arrivals ", arrivals, b"\n");
    put_line(page, b"admitted ", admitted, b"\n");
    put_line(page, b"turned away ", difference(arrivals, admitted), b"\n");
}

fn put_mean(page: &mut Page<'_>, w: Waits)
    ensures { Puts page.old (mean_line w) page.new }
{
    let n = w.admitted;
    if n == 0 {
        page.put(b"mean wait -\n");
    } else {
        put_line(page, b"mean wait ", mean(w.sum, n), b" ms\n");
    }
}

fn put_waits(page: &mut Page<'_>, w: Waits)
    ensures { Puts page.old (wait_lines w) page.new }
{
    put_line(page, b"longest wait ", w.longest, b" ms\n");
    put_line(page, b"sum of waits ", w.sum, b" ms\n");
    put_mean(page, w);
}

// Six lines, or the refusal's one.
fn put_lines(page: &mut Page<'_>, report: Report)
    ensures { Puts page.old (report_text report) page.new }
{
    let answer = report.answer;
    let waits = report.waits;
    if answer == DONE {
        put_counts(page, report.arrivals, waits.admitted);
        put_waits(page, waits);
    } else {
        put_refusal(page, answer, 0);
        page.put(b"\n");
    }
}

// The report, from the row's start on.
pub fn put_report(out: &mut [u8], report: Report) -> usize
    ensures { page out.new result ≡ puts (page out.old 0) (report_text report) }
{
    let mut page = Page::new(out);
    put_lines(&mut page, report);
    page.end()
}
