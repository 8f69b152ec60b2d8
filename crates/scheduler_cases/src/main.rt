// Runs 01's worked cases 5 to 9 through the calls, a lane that resumes before its list has gone, two where a lane owes to the boxes of an earlier count alone, and status. Each
// line has the case, the answers of its events, and what a lane shows at each time from one to another: a cell, or "r"
// and the number of a refusal.
#![tactic(auto)]

use std::fmt::Display;
use story::State;

const POOL: u64 = 8;

// What can't be written is left out.
fn write<D: Display + Drop>(rt: &HostRuntime, shown: D) {
    let _ = rt.print(shown);
}

fn word<D: Display + Drop>(rt: &HostRuntime, n: D) {
    write(rt, format_args!(" {n}"));
}

fn line(rt: &HostRuntime) {
    write(rt, "\n");
}

// An event's answer, and the state that it gives back.
fn told(rt: &HostRuntime, o: scheduler::Outcome) -> State {
    word(rt, o.answer);
    o.state
}

// A title of floor 2, cap 4 and 12 ms, whose tick is 1 ms, opened at 0.
fn opened(rt: &HostRuntime, count: u64) -> State {
    let pool = scheduler::fresh(POOL);
    told(rt, scheduler::open(pool.state, 0, 0, 12, 2, 4, count))
}

// What a lane shows at a time.
fn show(rt: &HostRuntime, s: State, lane: u64, time: u64) {
    let shown = scheduler::lane(s, 0, lane, time);
    if shown.answer == 0 {
        word(rt, shown.cell);
    } else {
        write(rt, format_args!(" r{}", shown.answer));
    }
}

// What a lane shows at each time from one up to another.
fn show_from(rt: &HostRuntime, s: State, lane: u64, from: u64, to: u64) {
    write(rt, " :");
    for time in from..to {
        show(rt, s, lane, time);
    }
}

// Lanes held at a time.
fn show_held(rt: &HostRuntime, s: State, time: u64) {
    write(rt, " held");
    word(rt, scheduler::held(s, time).lanes);
}

fn case5(rt: &HostRuntime) {
    write(rt, "5");
    let s = opened(rt, 3);
    let t = told(rt, scheduler::change(s, 0, 4, 2));
    show_from(rt, t, 2, 4, 7);
    show_held(rt, t, 5);
    show_held(rt, t, 6);
    line(rt);
}

fn case6(rt: &HostRuntime) {
    write(rt, "6");
    let s = opened(rt, 4);
    let t = told(rt, scheduler::change(s, 0, 4, 3));
    show_from(rt, t, 3, 4, 7);
    show_held(rt, t, 5);
    let u = told(rt, scheduler::change(t, 0, 6, 4));
    show_held(rt, u, 6);
    line(rt);
}

// Floor 4, cap 5, tick 1 ms: from 5 to 4 at 2 lane 4 owes three cells. At 3 a raise comes too soon; at 4, one floor slot
// after the drop, the lane resumes its usual cell, and the third is forgotten.
fn resumed(rt: &HostRuntime) {
    write(rt, "resumed");
    let pool = scheduler::fresh(POOL);
    let s = told(rt, scheduler::open(pool.state, 0, 0, 30, 4, 5, 5));
    let t = told(rt, scheduler::change(s, 0, 2, 4));
    show_from(rt, t, 4, 2, 6);
    let u = told(rt, scheduler::change(t, 0, 3, 5));
    let v = told(rt, scheduler::change(u, 0, 4, 5));
    show_from(rt, v, 4, 4, 9);
    show_held(rt, v, 4);
    line(rt);
}

fn case7(rt: &HostRuntime) {
    write(rt, "7");
    let s = opened(rt, 4);
    let t = told(rt, scheduler::change(s, 0, 8, 3));
    show_from(rt, t, 3, 8, 10);
    line(rt);
}

fn case8(rt: &HostRuntime) {
    write(rt, "8");
    let s = opened(rt, 3);
    let t = told(rt, scheduler::change(s, 0, 2, 2));
    let u = told(rt, scheduler::change(t, 0, 6, 2));
    let v = told(rt, scheduler::change(u, 0, 4, 2));
    show_held(rt, v, 4);
    line(rt);
}

// A count of 11 is above the cap; 13 is the one outside the limits.
fn case9(rt: &HostRuntime) {
    write(rt, "9");
    let s = opened(rt, 4);
    let t = told(rt, scheduler::change(s, 0, 4, 4));
    let u = told(rt, scheduler::change(t, 0, 4, 5));
    let v = told(rt, scheduler::change(u, 0, 4, 11));
    let w = told(rt, scheduler::change(v, 0, 4, 13));
    show_held(rt, w, 4);
    line(rt);
}

// Floor 4, cap 5, tick 1 ms: opened with count 4, to 5 at 4, closed at 6. One tick of lane 3 is owed to count 4 alone.
fn two_counts(rt: &HostRuntime) {
    write(rt, "two counts");
    let pool = scheduler::fresh(POOL);
    let s = told(rt, scheduler::open(pool.state, 0, 0, 30, 4, 5, 4));
    let t = told(rt, scheduler::change(s, 0, 4, 5));
    let u = told(rt, scheduler::close(t, 0, 6));
    show_from(rt, u, 3, 6, 22);
    line(rt);
}

// The doors are held at 7 and the count goes from 4 to 3 behind them: lane 1 then owes to the boxes of count 4 alone. A second hold, a
// hold in a slot of count 3 and a lift of what is not held are refused.
fn behind_doors(rt: &HostRuntime) {
    write(rt, "doors");
    let s = opened(rt, 4);
    let t = told(rt, scheduler::hold(s, 0, 7));
    let u = told(rt, scheduler::hold(t, 0, 8));
    let v = told(rt, scheduler::change(u, 0, 8, 3));
    let w = told(rt, scheduler::lift(v, 0, 9));
    let x = told(rt, scheduler::close(w, 0, 12));
    show_from(rt, x, 1, 12, 15);
    let y = told(rt, scheduler::lift(x, 0, 13));
    let z = told(rt, scheduler::lift(s, 0, 8));
    show_held(rt, y, 12);
    show_held(rt, z, 0);
    line(rt);
}

// Count, lanes held and mark of a title.
fn row(rt: &HostRuntime, count: u64, held: u64, mark: u64) {
    word(rt, count);
    word(rt, held);
    word(rt, mark);
}

// The status of some titles at 6, over rows of nines: the answer, and what each title's places hold.
fn print_status<const N: usize>(rt: &HostRuntime, s: State, ids: [u64; N]) {
    let mut counts = [9u64; N];
    let mut held = [9u64; N];
    let mut marks = [9u64; N];
    let answer = status::status(s, 6, &ids, &mut counts, &mut held, &mut marks);
    word(rt, answer);
    for i in 0..N {
        row(rt, counts[i], held[i], marks[i]);
    }
}

// Titles 0, 1 and 0 while a lane sends and the doors are held; then an id that is none, whose rows stay as they were.
fn asked(rt: &HostRuntime) {
    write(rt, "status");
    let s = opened(rt, 4);
    let t = told(rt, scheduler::change(s, 0, 4, 3));
    let u = told(rt, scheduler::hold(t, 0, 6));
    print_status(rt, u, [0, 1, 0]);
    print_status(rt, u, [16]);
    line(rt);
}

fn main(rt: HostRuntime) {
    case5(&rt);
    case6(&rt);
    resumed(&rt);
    case7(&rt);
    case8(&rt);
    case9(&rt);
    two_counts(&rt);
    behind_doors(&rt);
    asked(&rt);
}
