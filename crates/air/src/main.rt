// What the air carried for each admission of a title: arguments POOL TITLE LOG RECORD. What it should print on a record of the
// product's own answers is worked out apart from the code in expected.py.
#![tactic(auto)]

mod complaints;
mod lines;
mod places;
mod report;
mod run;

fn main(rt: HostRuntime) {
    run::run(&rt);
}
