// Times across the plot: a dozen at most, each a round one.

ghost use Rattle.std.specs.Prelude.{◌≤◌, ◌<◌, ◌≡◌};
ghost use Rattle.text.specs.Pages.{Puts};
ghost use Rattle.frames.specs.Times.{round_step, step_most, times_most, time_text, times_text, time_across};

use drawing::axis::put_time_mark;
use drawing::pieces::{put_path, put_path_end, put_point, put_step};
use measures::ticks::since;
use strips::scale::{Scale, place};
use text::page::Page;

// As many times at most.
const TIMES_MOST: u64 = 14;

// The last step.
const STEP_MOST: u64 = 1_099_511_627_776;

// From one time to the next, for a span: a second, a minute, an hour or a part of one.
fn round_step(span: u64) -> u64
    ensures { (result ≡ round_step span) × ((0 < result) × (result ≤ step_most)) }
{
    if span <= 12 {
        return 1;
    }
    if span <= 1_200 {
        return 100;
    }
    if span <= 12_000 {
        return 1_000;
    }
    if span <= 120_000 {
        return 10_000;
    }
    if span <= 720_000 {
        return 60_000;
    }
    if span <= 3_600_000 {
        return 300_000;
    }
    if span <= 10_800_000 {
        return 900_000;
    }
    if span <= 21_600_000 {
        return 1_800_000;
    }
    if span <= 43_200_000 {
        return 3_600_000;
    }
    if span <= 172_800_000 {
        return 14_400_000;
    }
    STEP_MOST
}

// A line through the picture at a time, and the time below it.
fn put_across(page: &mut Page<'_>, s: Scale, base: u32, time: u64)
    ensures { Puts page.old (time_across s base time) page.new }
{
    let x = place(s, time);
    put_path(page, b"grid");
    put_point(page, b'M', x, 780);
    put_step(page, b'V', base as u64);
    put_path_end(page);
    put_time_mark(page, x, base, time);
}

// A time, where it lies in what is drawn.
fn put_time(page: &mut Page<'_>, s: Scale, base: u32, time: u64)
    ensures { Puts page.old (time_text s base time) page.new }
{
    if s.first <= time && since(s.first, time) <= s.span {
        put_across(page, s, base, time);
    }
}

pub fn put_times(page: &mut Page<'_>, s: Scale, base: u32)
    ensures { Puts page.old (times_text s base times_most) page.new }
{
    let step = round_step(s.span);
    let from = s.first.min(STEP_MOST) / step;
    for n in 0..TIMES_MOST {
        put_time(page, s, base, (from + n) * step);
    }
}
