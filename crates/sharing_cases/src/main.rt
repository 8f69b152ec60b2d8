// Runs sharings whose answers were worked out apart from the code, by trying all choices (expected.py, beside src/,
// which writes `stdout`), and writes each answer and the whole lent row. The row has 17 places that start as 77, so
// that a line shows which places stay.
#![tactic(auto)]

use std::fmt::Display;

// What can't be written is left out.
fn write<D: Display + Drop>(rt: &HostRuntime, shown: D) {
    let _ = rt.print(shown);
}

// The answer and the row, on a line.
fn line(rt: &HostRuntime, answer: u8, row: &[u32]) {
    write(rt, answer);
    for n in row {
        write(rt, format_args!(" {n}"));
    }
    write(rt, "\n");
}

fn run(rt: &HostRuntime, pool: u64, rates: &[u32], lengths: &[u32], floors: &[u32], caps: &[u32]) {
    let mut row = [77u32; 17];
    let answer = sharing::share(pool, rates, lengths, floors, caps, &mut row);
    line(rt, answer, &row);
}

// Two titles with floor 2 and cap 4, by their rates and lengths.
fn two(rt: &HostRuntime, pool: u64, rates: [u32; 2], lengths: [u32; 2]) {
    let floors = [2u32, 2];
    let caps = [4u32, 4];
    run(rt, pool, &rates, &lengths, &floors, &caps);
}

// Three titles of D 210 with floor 2 and cap 5.
fn three(rt: &HostRuntime, pool: u64, a: u32, b: u32, c: u32) {
    let rates = [a, b, c];
    let lengths = [210u32, 210, 210];
    let floors = [2u32, 2, 2];
    let caps = [5u32, 5, 5];
    run(rt, pool, &rates, &lengths, &floors, &caps);
}

// 01's case 11: D 210 twice.
fn worked(rt: &HostRuntime, pool: u64, first: u32, second: u32) {
    two(rt, pool, [first, second], [210, 210]);
}

// Two titles: the first one's fall from 3 lanes and the second one's from 2 differ by one part in 18 million.
fn near(rt: &HostRuntime, pool: u64, rate: u32, length: u32, first: u32) {
    let rates = [first, rate];
    let lengths = [14_399_000u32, length];
    let floors = [2u32, 2];
    let caps = [10u32, 10];
    run(rt, pool, &rates, &lengths, &floors, &caps);
}

// Sixteen titles at the largest rate and length.
fn largest(rt: &HostRuntime, pool: u64) {
    let rates = [1000u32; 16];
    let lengths = [14_400_000u32; 16];
    let floors = [2u32; 16];
    let caps = [10u32; 16];
    run(rt, pool, &rates, &lengths, &floors, &caps);
}

// Sixteen titles, no two alike.
fn mixed(rt: &HostRuntime, pool: u64) {
    let rates = [
        1000u32, 1, 500, 250, 999, 7, 64, 300, 1000, 12, 90, 610, 2, 45, 800, 333,
    ];
    let lengths = [
        14_400_000u32,
        1,
        7_200_000,
        14_400_000,
        5_400_000,
        14_400_000,
        600_000,
        60_000,
        9_000_000,
        3_600_000,
        14_399_999,
        1_000,
        12_345_678,
        8_000_000,
        4_000_000,
        10_000_000,
    ];
    let floors = [2u32, 2, 3, 2, 2, 4, 2, 2, 2, 2, 2, 5, 2, 2, 2, 2];
    let caps = [10u32, 2, 10, 3, 9, 4, 10, 10, 4, 10, 10, 5, 10, 10, 10, 10];
    run(rt, pool, &rates, &lengths, &floors, &caps);
}

// Three titles; the second one's numbers are within their limits or not.
fn limits(rt: &HostRuntime, pool: u64, rate: u32, length: u32, floor: u32, cap: u32) {
    let rates = [5u32, rate, 1];
    let lengths = [100u32, length, 14_400_000];
    let floors = [2u32, floor, 2];
    let caps = [3u32, cap, 10];
    run(rt, pool, &rates, &lengths, &floors, &caps);
}

// Two titles of the largest cap, one of the longest film at the largest rate and one of the shortest at the least.
fn longest(rt: &HostRuntime, pool: u64) {
    let rates = [1u32, 1000];
    let lengths = [1u32, 14_400_000];
    let floors = [2u32, 2];
    let caps = [12u32, 12];
    run(rt, pool, &rates, &lengths, &floors, &caps);
}

// Rows of different length, too many titles, no room; and no titles at all.
fn rows(rt: &HostRuntime) {
    let one = [2u32];
    let two = [2u32, 2];
    let none = [0u32; 0];
    let many = [2u32; 17];
    run(rt, 9, &one, &two, &two, &two);
    run(rt, 9, &two, &one, &two, &two);
    run(rt, 9, &two, &two, &one, &two);
    run(rt, 0, &two, &two, &two, &one);
    run(rt, 64, &many, &many, &many, &many);
    run(rt, 1, &none, &none, &none, &none);
    run(rt, 0, &none, &none, &none, &none);
    run(rt, 65, &none, &none, &none, &none);
    let mut row = [77u32; 1];
    let answer = sharing::share(0, &two, &two, &two, &two, &mut row);
    line(rt, answer, &row);
}

fn main(rt: HostRuntime) {
    worked(&rt, 4, 1, 2);
    worked(&rt, 5, 1, 2);
    worked(&rt, 6, 1, 2);
    worked(&rt, 7, 1, 2);
    worked(&rt, 3, 1, 2);
    worked(&rt, 5, 1, 1);
    // the slots that boxes wait for, not the plain scheme's segments
    two(&rt, 6, [4, 9], [12, 12]);
    // a tick of 13 ms / 12 is 2 ms
    two(&rt, 5, [3, 2], [12, 13]);
    three(&rt, 7, 1, 1, 1);
    three(&rt, 8, 1, 1, 1);
    three(&rt, 10, 1, 1, 1);
    three(&rt, 8, 2, 5, 2);
    three(&rt, 9, 2, 5, 2);
    three(&rt, 10, 2, 5, 2);
    three(&rt, 64, 2, 5, 2);
    near(&rt, 6, 973, 7_391_500, 999);
    near(&rt, 6, 916, 7_820_000, 995);
    largest(&rt, 64);
    largest(&rt, 47);
    largest(&rt, 31);
    mixed(&rt, 64);
    mixed(&rt, 50);
    limits(&rt, 64, 5, 100, 2, 3);
    limits(&rt, 64, 0, 100, 2, 3);
    limits(&rt, 64, 1001, 100, 2, 3);
    limits(&rt, 64, 5, 0, 2, 3);
    limits(&rt, 64, 5, 14_400_001, 2, 3);
    limits(&rt, 64, 5, 100, 1, 3);
    limits(&rt, 64, 5, 100, 6, 10);
    limits(&rt, 64, 5, 100, 2, 13);
    limits(&rt, 64, 5, 100, 2, 12);
    longest(&rt, 24);
    longest(&rt, 20);
    limits(&rt, 0, 5, 100, 5, 4);
    limits(&rt, 5, 5, 100, 5, 4);
    limits(&rt, 8, 5, 100, 5, 5);
    limits(&rt, 9, 5, 100, 5, 5);
    rows(&rt);
}
