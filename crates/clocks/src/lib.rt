// Times as people write them: hours, minutes, seconds and thousandths, written (`put_clock`) and read (`reading`). Nothing is
// written past the end of a lent row. No public function has a `requires`.
#![tactic(auto)]

ghost use Rattle.std.specs.Prelude.{◌≡◌};
ghost use Rattle.text.specs.Pages.{Puts};
ghost use Rattle.clocks.specs.Clocks.{last_digit, clock_text, part_text, thousandths_text};

use text::page::Page;

pub mod reading;

// The milliseconds of an hour, a minute and a second.
pub const HOUR: u64 = 3_600_000;

pub const MINUTE: u64 = 60_000;

pub const SECOND: u64 = 1_000;

// The last digit of a number.
fn last_digit(n: u64) -> u8
    ensures { result ≡ last_digit n }
{
    (48 + n % 10) as u8
}

// A colon and two digits: minutes or seconds.
fn put_part(page: &mut Page<'_>, n: u64)
    ensures { Puts page.old (part_text n) page.new }
{
    let row = [b':', last_digit(n / 10), last_digit(n)];
    page.put(&row);
}

// A point and three digits.
fn put_thousandths(page: &mut Page<'_>, n: u64)
    ensures { Puts page.old (thousandths_text n) page.new }
{
    let row = [b'.', last_digit(n / 100), last_digit(n / 10), last_digit(n)];
    page.put(&row);
}

// Milliseconds as h:mm:ss, with .mmm behind it where a part of a second is left.
pub fn put_clock(page: &mut Page<'_>, ms: u64)
    ensures { Puts page.old (clock_text ms) page.new }
{
    page.put_number(ms / HOUR);
    put_part(page, ms % HOUR / MINUTE);
    put_part(page, ms % MINUTE / SECOND);
    let left = ms % SECOND;
    if left != 0 {
        put_thousandths(page, left);
    }
}
