// The picture of a whole log of notices, as the text of an SVG: the log is played twice into a fresh agent, once for what is drawn, once
// for its marks. No public function has a `requires`: any pool and any bytes have a picture.
#![tactic(auto)]

mod whole;

ghost use Rattle.std.specs.Prelude.{◌≡◌, length, replicate};
ghost use Rattle.text.specs.Output.{Written};
ghost use Rattle.charts.specs.Charts.{picture_text};

use rules::{OUTSIDE_LIMITS, POOL_MAX, POOL_MIN, within};
use spans::measure;
use text::page::Page;
use whole::put_finest;
use words::put_refusal;

// The picture at the start of a row whose other bytes are 0 then, drawn in the finest columns in which it has room; a pool outside its
// limits is refused in words.
pub fn put_chart(out: &mut [u8], pool: u64, log: &[u8]) -> usize
    ensures { Written (replicate (length out.old) 0) 0 (picture_text (length out.old) pool log.now)
        out.new result }
{
    if within(POOL_MIN, POOL_MAX, pool) {
        return put_finest(out, measure(pool, log), pool, log);
    }
    out.fill(0);
    let mut page = Page::new(out);
    put_refusal(&mut page, OUTSIDE_LIMITS, 0);
    page.end()
}
