// What the journal and its sums were found to be, in lines. A journal that plays up to its end is good, whatever its last write left
// behind: bytes of a notice that is not whole, notices without a sum, sums without a notice. Of any other nothing is changed.

use crate::playing::less;
use crate::saying::{say_one, say_refused, say_two};
use journal_files::pairs::Pair;
use journals::{BLOCK_EVENTS, Start, Verdict, sums_length};
use rules::MALFORMED;
use streams::ports::{Port, tell};

// No journal has so many notices.
const MANY: usize = 4_611_686_018_427_387_904;

// The number of the notice that comes after so many, and so many more.
fn after(n: usize, m: usize) -> usize {
    if n < MANY && m < MANY {
        n + m + 1
    } else {
        MANY
    }
}

fn say_short(rt: &HostRuntime, port: Port, sums: usize) {
    say_two(
        rt,
        port,
        b"? JOURNAL.sums: more than ",
        BLOCK_EVENTS,
        b" notices behind its ",
        sums,
        b" sums (headend --sums POOL JOURNAL makes it anew)\n",
    );
}

// What is wrong with a journal that is not good.
pub fn say_wrong(rt: &HostRuntime, port: Port, start: Start) {
    let place = start.place;
    let heard = start.heard;
    let verdict = start.verdict;
    match verdict {
        Verdict::NoNotice => say_refused(rt, port, place, after(heard, start.behind), MALFORMED),
        Verdict::Refused(answer) => say_refused(rt, port, place, after(heard, 0), answer),
        Verdict::SumDiffers => say_two(
            rt,
            port,
            b"? JOURNAL: byte ",
            place,
            b", notice ",
            after(heard, 0),
            b": its sum in JOURNAL.sums is another\n",
        ),
        Verdict::SumsShort => say_short(rt, port, start.sums),
        Verdict::SumsMissing => {
            tell(
                rt,
                port,
                b"? JOURNAL.sums is missing (headend --sums POOL JOURNAL makes it anew)\n",
            );
        }
        Verdict::Hearing => say_one(
            rt,
            port,
            b"? JOURNAL: byte ",
            place,
            b": the file became shorter while it was read\n",
        ),
        Verdict::Heard => {}
        Verdict::Torn => {}
    }
}

// What a start cuts off, or a check leaves.
fn say_torn(rt: &HostRuntime, port: Port, bytes: usize, place: usize, cuts: bool) {
    if cuts {
        say_two(
            rt,
            port,
            b"JOURNAL: torn end, ",
            bytes,
            b" bytes at byte ",
            place,
            b", cut off\n",
        );
    } else {
        say_two(
            rt,
            port,
            b"JOURNAL: torn end, ",
            bytes,
            b" bytes at byte ",
            place,
            b", to be cut off\n",
        );
    }
}

fn say_unsummed(rt: &HostRuntime, port: Port, notices: usize, place: usize, cuts: bool) {
    let name = b"JOURNAL: notices without a sum, never answered, ";
    if cuts {
        say_two(rt, port, name, notices, b" at byte ", place, b", cut off\n");
    } else {
        say_two(
            rt,
            port,
            name,
            notices,
            b" at byte ",
            place,
            b", to be cut off\n",
        );
    }
}

fn say_surplus(rt: &HostRuntime, port: Port, bytes: usize, place: usize, cuts: bool) {
    let name = b"JOURNAL.sums: sums without a notice, ";
    if cuts {
        say_two(
            rt,
            port,
            name,
            bytes,
            b" bytes at byte ",
            place,
            b", cut off\n",
        );
    } else {
        say_two(
            rt,
            port,
            name,
            bytes,
            b" bytes at byte ",
            place,
            b", to be cut off\n",
        );
    }
}

// The ends of a good journal and of its sums that do not count.
pub fn say_ends(rt: &HostRuntime, port: Port, pair: &Pair, start: Start, cuts: bool) {
    let torn = less(pair.size, start.place);
    if torn != 0 {
        say_torn(rt, port, torn, start.place, cuts);
    }
    if start.behind != 0 {
        say_unsummed(rt, port, start.behind, start.cut, cuts);
    }
    let kept = sums_length(start);
    if kept < pair.summed {
        say_surplus(rt, port, less(pair.summed, kept), kept, cuts);
    }
}
