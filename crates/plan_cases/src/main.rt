// Prints the plan of 01's fourth worked case, as the call gives it: floor 2, cap 4, count 4, arrival 0, cells 0 to 15.
#![tactic(auto)]

use std::fmt::Display;

// What can't be written is left out.
fn write<D: Display + Drop>(rt: &HostRuntime, shown: D) {
    let _ = rt.print(shown);
}

// One number of the plan: the tick minus the arrival, or "none" for a cell that is never taken.
fn print_place(rt: &HostRuntime, place: u16) {
    if place == plans::NEVER {
        write(rt, "none");
    } else {
        write(rt, place);
    }
}

// The whole row on a line.
fn print_row(rt: &HostRuntime, row: &[u16]) {
    for (i, place) in row.iter().enumerate() {
        if i > 0 {
            write(rt, " ");
        }
        print_place(rt, *place);
    }
    write(rt, "\n");
}

fn main(rt: HostRuntime) {
    let mut row = [0u16; 16];
    let answer = plans::plan(2, 4, 4, 0, &mut row);
    if answer == rules::DONE {
        print_row(&rt, &row);
    } else {
        write(&rt, "refused\n");
    }
}
