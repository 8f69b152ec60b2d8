// Pieces of a picture: numbers in tenths of a pixel, rectangles, labels and paths.

ghost use Rattle.text.specs.Pages.{Puts};
ghost use Rattle.drawing.specs.Pieces.{
  tenths_text,
  field_text,
  rect_text,
  rect_end,
  label_text,
  label_end,
  path_text,
  step_text,
  point_text,
  path_end,
};

use text::page::Page;

// A rectangle's left upper corner and its sizes.
#[derive(Clone, Copy)]
pub struct Area {
    pub x: u64,
    pub y: u64,
    pub width: u64,
    pub height: u64,
}

// Tenths of a pixel, as pixels.
pub fn put_tenths(page: &mut Page<'_>, n: u64)
    ensures { Puts page.old (tenths_text n) page.new }
{
    page.put_number(n / 10);
    page.put(b".");
    page.put_number(n % 10);
}

// A number of tenths behind what leads to it.
pub fn put_field(page: &mut Page<'_>, lead: &[u8], n: u64)
    ensures { Puts page.old (field_text lead.now n) page.new }
{
    page.put(lead);
    put_tenths(page, n);
}

// A rectangle up to where its hover text begins.
pub fn put_rect(page: &mut Page<'_>, class: &[u8], number: u64, area: Area)
    ensures { Puts page.old (rect_text class.now number area) page.new }
{
    page.put(b"<rect class='");
    page.put(class);
    page.put_number(number);
    put_field(page, b"' x='", area.x);
    put_field(page, b"' y='", area.y);
    put_field(page, b"' width='", area.width);
    put_field(page, b"' height='", area.height);
    page.put(b"'><title>");
}

pub fn put_rect_end(page: &mut Page<'_>)
    ensures { Puts page.old rect_end page.new }
{
    page.put(b"</title></rect>\n");
}

// A label up to where its text begins.
pub fn put_label(page: &mut Page<'_>, class: &[u8], x: u64, y: u64)
    ensures { Puts page.old (label_text class.now x y) page.new }
{
    page.put(b"<text class='");
    page.put(class);
    put_field(page, b"' x='", x);
    put_field(page, b"' y='", y);
    page.put(b"'>");
}

pub fn put_label_end(page: &mut Page<'_>)
    ensures { Puts page.old label_end page.new }
{
    page.put(b"</text>\n");
}

// A path up to its first step.
pub fn put_path(page: &mut Page<'_>, class: &[u8])
    ensures { Puts page.old (path_text class.now) page.new }
{
    page.put(b"<path class='");
    page.put(class);
    page.put(b"' d='");
}

// A step across or down: its letter is H or V.
pub fn put_step(page: &mut Page<'_>, letter: u8, n: u64)
    ensures { Puts page.old (step_text letter n) page.new }
{
    let row = [letter];
    put_field(page, &row, n);
}

// A step to a point: its letter is M or L.
pub fn put_point(page: &mut Page<'_>, letter: u8, x: u64, y: u64)
    ensures { Puts page.old (point_text letter x y) page.new }
{
    put_step(page, letter, x);
    put_field(page, b" ", y);
}

pub fn put_path_end(page: &mut Page<'_>)
    ensures { Puts page.old path_end page.new }
{
    page.put(b"'/>\n");
}
