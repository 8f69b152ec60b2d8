// Runs notices through the product's calls and prints what they answer, for the gate to compare: case 12 of 01 and its
// neighbours of 29 and 31 bytes, a hold and a lift (02, request 7), the opening of a skip-forward title (request 12) and
// its neighbours, rooms that are too short, a log read to its end, and notices with one thing wrong.
#![tactic(auto)]

ghost use Rattle.std.specs.Prelude.{◌≡◌, ◌<◌, ◌^◌, length};

use notice::{Found, Kind, Notice, Reading};
use std::fmt::Display;

// What can't be written is left out. A call's answer starts a line, and each number after it has a space before it.
fn write<D: Display + Drop>(rt: &HostRuntime, shown: D) {
    let _ = rt.print(shown);
}

// Case 12 as the paper has it, and one byte more.
fn case_12() -> [u8; 31]
    ensures { 31 ≡ length result }
{
    [
        1, 0, 1, 2, 2, 0, 4, 0, 0, 0, 2, 3, 0, 1, 0, 4, 0, 8, 0, 0, 0, 0, 0, 0, 0, 4, 8, 0, 1, 3, 0,
    ]
}

// A hold of sequence 5 and a lift of sequence 6, both of title 3, at 8 and at 12, as worked out by hand.
fn hold_bytes() -> [u8; 26] {
    [
        1, 0, 1, 4, 2, 0, 4, 0, 0, 0, 5, 3, 0, 1, 3, 4, 0, 8, 0, 0, 0, 0, 0, 0, 0, 8,
    ]
}

fn lift_bytes() -> [u8; 26] {
    [
        1, 0, 1, 5, 2, 0, 4, 0, 0, 0, 6, 3, 0, 1, 3, 4, 0, 8, 0, 0, 0, 0, 0, 0, 0, 12,
    ]
}

// The opening of skip-forward title 4 at 16, with sequence 9, for a film of 5,400,000 ms on 4 lanes, as worked out by hand,
// and one byte more.
fn skip_bytes() -> [u8; 38] {
    [
        1, 0, 1, 6, 2, 0, 4, 0, 0, 0, 9, 3, 0, 1, 4, 4, 0, 8, 0, 0, 0, 0, 0, 0, 0, 16, 5, 0, 4, 0,
        82, 101, 192, 8, 0, 1, 4, 0,
    ]
}

fn print_number<D: Display + Drop>(rt: &HostRuntime, n: D) {
    write(rt, format_args!(" {n}"));
}

fn end_line(rt: &HostRuntime) {
    write(rt, "\n");
}

// The bytes in hexadecimal, and the end of the line.
fn print_bytes(rt: &HostRuntime, bytes: &[u8]) {
    write(rt, " ");
    for byte in bytes {
        write(rt, format_args!("{byte:02x}"));
    }
    end_line(rt);
}

// Sequence, kind, title and time, then what the kind carries.
fn print_notice(rt: &HostRuntime, n: Notice) {
    let kind = n.kind;
    print_number(rt, n.sequence);
    print_number(rt, notice::kind_number(kind));
    print_number(rt, n.title);
    print_number(rt, n.time);
    match kind {
        Kind::Open {
            length,
            floor,
            cap,
            count,
        } => {
            print_number(rt, length);
            print_number(rt, floor);
            print_number(rt, cap);
            print_number(rt, count);
        }
        Kind::Change { count } => print_number(rt, count),
        Kind::Close | Kind::Hold | Kind::Lift => {}
        Kind::Skip { length, count } => {
            print_number(rt, length);
            print_number(rt, count);
        }
    }
}

// The answer's number, and the notice where there is one.
fn print_reading(rt: &HostRuntime, r: Reading) {
    match r {
        Reading::Whole(n) => {
            write(rt, rules::DONE);
            print_notice(rt, n);
        }
        Reading::Malformed => write(rt, rules::MALFORMED),
    }
    end_line(rt);
}

fn print_found(rt: &HostRuntime, f: Found) {
    match f {
        Found::At(n, place) => {
            write(rt, rules::DONE);
            print_notice(rt, n);
            print_number(rt, place);
        }
        Found::End => write(rt, "end"),
        Found::Malformed => write(rt, rules::MALFORMED),
    }
    end_line(rt);
}

// What the first n bytes read as.
fn print_first(rt: &HostRuntime, bytes: &[u8], n: usize) {
    if n <= bytes.len() {
        print_reading(rt, notice::read(&bytes[..n]));
    }
}

fn neighbours(rt: &HostRuntime) {
    let bytes = case_12();
    print_first(rt, &bytes, 29);
    print_first(rt, &bytes, 30);
    print_first(rt, &bytes, 31);
    print_first(rt, &bytes, 0);
}

// A notice written into a room of so many bytes: the answer, and what the room holds.
fn print_written<const N: usize>(rt: &HostRuntime, n: Notice)
    requires { N < 2 ^ 63 }
{
    let mut room = [255u8; N];
    write(rt, notice::write(n, &mut room));
    print_bytes(rt, &room);
}

// Case 12 written, into room enough and into a byte too little.
fn written(rt: &HostRuntime) {
    let n = Notice {
        sequence: 2,
        title: 0,
        time: 4,
        kind: Kind::Change { count: 3 },
    };
    print_written::<32>(rt, n);
    print_written::<29>(rt, n);
}

// A hold and a lift read from their bytes, whole and cut, and written again: the room's last byte stays.
fn doors(rt: &HostRuntime) {
    let hold = hold_bytes();
    print_first(rt, &hold, 26);
    print_first(rt, &hold, 25);
    print_first(rt, &lift_bytes(), 26);
    print_door(rt, 5, 8, Kind::Hold);
    print_door(rt, 6, 12, Kind::Lift);
}

fn print_door(rt: &HostRuntime, sequence: u32, time: u64, kind: Kind) {
    let n = Notice {
        sequence,
        title: 3,
        time,
        kind,
    };
    print_written::<27>(rt, n);
}

// The opening of a skip-forward title read from its bytes, cut, whole and with a byte more, and with an open's kind; then
// written again, into room enough and into a byte too little.
fn skipping(rt: &HostRuntime) {
    let mut bytes = skip_bytes();
    print_first(rt, &bytes, 36);
    print_first(rt, &bytes, 37);
    print_first(rt, &bytes, 38);
    bytes[3] = notice::OPEN;
    print_first(rt, &bytes, 37);
    let n = Notice {
        sequence: 9,
        title: 4,
        time: 16,
        kind: Kind::Skip {
            length: 5400000,
            count: 4,
        },
    };
    print_number(rt, notice::size(n));
    end_line(rt);
    print_written::<38>(rt, n);
    print_written::<36>(rt, n);
    print_reading(rt, survives(n));
}

// Case 12 with one byte changed.
fn changed(rt: &HostRuntime, at: usize, to: u8)
    requires { at < 30 }
{
    let mut bytes = case_12();
    bytes[at] = to;
    print_first(rt, &bytes, 30);
}

// What is written reads back: shown for every record, and run for one outside every limit.
fn survives(n: Notice) -> Reading
    ensures { result ≡ Reading.Whole n }
{
    let mut room = [0u8; notice::LONGEST_NOTICE];
    let size = notice::size(n);
    notice::write(n, &mut room);
    notice::read(&room[..size])
}

// Every limit passed, and still well formed.
fn outside() -> Notice {
    Notice {
        sequence: 4294967295,
        title: 255,
        time: 18446744073709551615,
        kind: Kind::Open {
            length: 4294967295,
            floor: 255,
            cap: 255,
            count: 255,
        },
    }
}

// An open and a close back to back, and five bytes that are no notice.
fn fill(rt: &HostRuntime, bytes: &mut [u8]) {
    let close = Notice {
        sequence: 7,
        title: 3,
        time: 8,
        kind: Kind::Close,
    };
    write(rt, notice::write(outside(), bytes));
    end_line(rt);
    if 71 <= bytes.len() {
        write(rt, notice::write(close, &mut bytes[45..71]));
        end_line(rt);
    }
}

// A log read from each notice's place, at its end and past it.
fn log(rt: &HostRuntime) {
    let mut bytes = [0u8; 76];
    fill(rt, &mut bytes);
    print_log(rt, &bytes);
}

fn print_log(rt: &HostRuntime, bytes: &[u8]) {
    print_bytes(rt, bytes);
    print_found(rt, notice::next_in(bytes, 0));
    print_found(rt, notice::next_in(bytes, 45));
    print_found(rt, notice::next_in(bytes, 71));
    print_found(rt, notice::next_in(bytes, 76));
    print_found(rt, notice::read_at(bytes, 18446744073709551615));
}

fn main(rt: HostRuntime) {
    neighbours(&rt);
    written(&rt);
    doors(&rt);
    skipping(&rt);
    // an unknown kind, a hold and a lift with a count, a skip without a length, another tag, a descending tag, and another length in either byte
    changed(&rt, 3, 7);
    changed(&rt, 3, 4);
    changed(&rt, 3, 5);
    changed(&rt, 3, 6);
    changed(&rt, 4, 9);
    changed(&rt, 11, 1);
    changed(&rt, 6, 5);
    changed(&rt, 5, 1);
    print_reading(&rt, survives(outside()));
    log(&rt);
}
