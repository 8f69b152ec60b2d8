// Gets what is left out of a damaged log on standard input: the taken notices to standard output, what was skipped to standard error.
#![tactic(auto)]

mod blocks;
mod input;

use streams::ports::Port;
use streams::usage::count_is;

fn main(rt: HostRuntime) {
    if count_is(&rt, 1, b"salvage < DAMAGED > LOG") {
        let ports = input::Ports {
            taken: Port::Output,
            told: Port::Errors,
        };
        input::salvage_input(&rt, ports);
    }
}
