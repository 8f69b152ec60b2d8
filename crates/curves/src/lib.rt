// Lanes held as a step curve: the steps between two events, at the releases of lanes. These functions are for the crates above, and say in
// a `requires` what they build on.
#![tactic(auto)]

ghost use Rattle.std.specs.Prelude.{◌≤◌, ◌<◌, ◌≡◌, length};
ghost use Rattle.rules.specs.Limits.{titles_max};
ghost use Rattle.moments.specs.inner.Steps.{release_in};
ghost use Rattle.text.specs.Pages.{Puts};
ghost use Rattle.agent_rows.specs.Packed.{unpacked};
ghost use Rattle.row_calls.specs.inner.Steps.{Tested};
ghost use Rattle.strips.specs.Kept.{kept_length};
ghost use Rattle.curves.specs.Curves.{height_of, level_text, level_kept, next_step, curve_text, curve_kept};

use agent_rows::holding::lanes_held;
use agent_rows::reading::title_at;
use drawing::axis::part;
use drawing::pieces::{put_path, put_path_end, put_point, put_step};
use measures::ticks::since;
use moments::PAST;
use moments::releases::title_release;
use rules::TITLES_MAX;
use strips::kept::LEVEL;
use strips::scale::{Scale, place};
use text::page::Page;

// Where a curve is drawn: its scale, the lanes of the pool, and the place of no lanes.
#[derive(Clone, Copy)]
pub struct Curve {
    pub scale: Scale,
    pub pool: u64,
    pub base: u32,
}

// How high the pool's line is drawn.
const POOL_HEIGHT: u16 = 1_000;

// Where a number of lanes is drawn.
pub fn height(c: Curve, lanes: u64) -> u64
    ensures { result ≡ height_of c lanes }
{
    since(part(POOL_HEIGHT, c.pool, lanes), c.base as u64)
}

// A step: so many lanes are held from one moment to another. One within a column is left out.
fn put_level(page: &mut Page<'_>, kept: &mut [u64], c: Curve, from: u64, to: u64, lanes: u64)
    requires { length kept.old ≡ kept_length }
    ensures written { Puts page.old (level_text c kept.old from to lanes) page.new }
    ensures kept_after { kept.new ≡ level_kept c kept.old from to lanes }
{
    let scale = c.scale;
    let x = place(scale, from);
    let end = place(scale, to);
    if x < end {
        let old = height(c, kept[LEVEL]);
        put_path(page, b"curve");
        put_point(page, b'M', x, old);
        put_step(page, b'V', height(c, lanes));
        put_step(page, b'H', end);
        put_path_end(page);
        kept[LEVEL] = lanes;
    }
}

// The next release of a row's lanes after a time.
fn next_release(row: &[u64], time: u64) -> u64
    requires { Tested row.now }
    ensures { result ≡ release_in (unpacked row.now).state time titles_max }
{
    let mut r = PAST;
    for id in 0..TITLES_MAX as u64 {
        r = title_release(title_at(row, id), time, r);
    }
    r
}

// Where the step at a time ends: at the next release, but no later than a moment.
fn next_step(row: &[u64], time: u64, to: u64) -> u64
    requires tested { Tested row.now }
    requires time_lt_to { time < to }
    ensures { (result ≡ next_step (unpacked row.now).state time to) × ((time < result) × (result ≤ to)) }
{
    let next = next_release(row, time);
    if time < next {
        return next.min(to);
    }
    to
}

// The curve from one moment to another, while a row stays as it is.
pub fn put_curve(page: &mut Page<'_>, kept: &mut [u64], c: Curve, row: &[u64], from: u64, to: u64)
    requires kept_len { length kept.old ≡ kept_length }
    requires tested { Tested row.now }
    ensures written { Puts page.old (curve_text c (unpacked row.now).state kept.old from to) page.new }
    ensures kept_after { kept.new ≡ curve_kept c (unpacked row.now).state kept.old from to }
{
    let mut time = from;
    while time < to {
        let next = next_step(row, time, to);
        put_level(page, kept, c, time, next, lanes_held(row, time));
        time = next;
    }
}
