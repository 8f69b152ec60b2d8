// The lines of a row of numbers, twelve to a line, and that of a refusal, written on a page. What has no room is left out.

ghost use Rattle.std.specs.Prelude.{length, get_or};
ghost use Rattle.text.specs.Pages.{Puts};
ghost use Rattle.playouts.specs.Lines.{carried_text, behind_place, number_lines, refused_line};

use judging::NOTHING_SEEN;
use rules::{LANE_MAX, LANE_PLACES};
use text::page::Page;
use words::put_refusal;

// The cell that a lane carries, or a dash.
fn put_carried(page: &mut Page<'_>, number: u16)
    ensures { Puts page.old (carried_text number) page.new }
{
    if number == NOTHING_SEEN {
        page.put(b"-");
    } else {
        page.put_number(number as u64);
    }
}

// What stands behind the number at a place.
fn put_behind(page: &mut Page<'_>, j: usize)
    ensures { Puts page.old (behind_place j) page.new }
{
    if (j % LANE_PLACES) as u64 == LANE_MAX {
        page.put(b"\n");
    } else {
        page.put(b" ");
    }
}

pub fn put_numbers(page: &mut Page<'_>, numbers: &[u16])
    ensures { Puts page.old (number_lines (λ j. get_or numbers.now j 0) (length numbers.now)) page.new }
{
    for (j, number) in numbers.iter().enumerate() {
        put_carried(page, *number);
        put_behind(page, j);
    }
}

pub fn put_refused(page: &mut Page<'_>, answer: u8)
    ensures { Puts page.old (refused_line answer) page.new }
{
    put_refusal(page, answer, 0);
    page.put(b"\n");
}
