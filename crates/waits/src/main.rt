// How long people waited for a title's next admission: arguments POOL TITLE LOG ARRIVALS.
#![tactic(auto)]

mod arrivals;
mod complaints;
mod lines;
mod run;

fn main(rt: HostRuntime) {
    run::run(&rt);
}
