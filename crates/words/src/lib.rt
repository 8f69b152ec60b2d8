// The refusals in words, as every program answers them: number, words, and the number that some of the words name. No
// public function has a `requires`; nothing is written past the end of the page's row.
#![tactic(auto)]

ghost use Rattle.std.specs.Prelude.{◌≡◌};
ghost use Rattle.text.specs.Pages.{Puts};
ghost use Rattle.words.specs.Words.{refusal_words, is_naming, meaning_text, naming_words, refusal_text, missed as missed_of};

use text::page::Page;

pub mod lines;

// The words of a refusal, each the line of its number.
fn refusal_words(page: &mut Page<'_>, number: u8)
    ensures { Puts page.old (refusal_words number) page.new }
{
    let words = b"done\n\
        number out of range\n\
        earlier than an accepted event\n\
        title not there or lane not held\n\
        id still in use\n\
        title is closing\n\
        count unchanged\n\
        title has an event at this time\n\
        not at a permitted slot start\n\
        too few free lanes\n\
        rows do not match or room too short\n\
        malformed notice\n\
        notice out of turn\n\
        below the floor\n\
        above the cap\n\
        floor above its cap\n\
        change too soon\n\
        doors already held or lifted\n\
        an event would fall after the clock's last time\n\
        a skip-forward title has a steady count and no doors to hold\n";
    lines::put_line(page, words, number);
}

// Whether a refusal names a number: those from OUT_OF_TURN to ABOVE_CAP, and TOO_SOON.
fn names_number(number: u8) -> bool
    ensures { result ≡ is_naming number }
{
    matches!(
        number,
        rules::OUT_OF_TURN..=rules::ABOVE_CAP | rules::TOO_SOON
    )
}

// A refusal's number and its words.
pub fn put_meaning(page: &mut Page<'_>, number: u8)
    ensures { Puts page.old (meaning_text number) page.new }
{
    page.put_number(number as u64);
    page.put(b" ");
    refusal_words(page, number);
}

// The words that lead from a refusal to the number that it names.
fn put_naming(page: &mut Page<'_>, number: u8)
    ensures { Puts page.old (naming_words number) page.new }
{
    match number {
        rules::OUT_OF_TURN => page.put(b", expected is "),
        rules::TOO_SOON => page.put(b", not before "),
        _ => page.put(b", which is "),
    }
}

// A refusal: its number, its words, and the number that it names, if it names one.
pub fn put_refusal(page: &mut Page<'_>, number: u8, named: u64)
    ensures { Puts page.old (refusal_text number named) page.new }
{
    put_meaning(page, number);
    if names_number(number) {
        put_naming(page, number);
        page.put_number(named);
    }
}

// Of a count below its floor or above its cap, the one that it missed.
pub fn missed(number: u8, floor: u64, cap: u64) -> u64
    ensures { result ≡ missed_of number floor cap }
{
    if number == rules::BELOW_FLOOR {
        floor
    } else {
        cap
    }
}
