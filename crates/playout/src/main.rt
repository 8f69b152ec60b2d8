// What the twelve lanes of a title carry, tick by tick: arguments POOL ID LOG FROM TICKS. It is run on the log that the program `air` is
// run on, and must print the record there, which was worked out apart from the code.
#![tactic(auto)]

mod complaints;
mod run;

fn main(rt: HostRuntime) {
    run::run(&rt);
}
