// Pictures of a log on standard input: that of the whole log, with POOL as its argument or none, or with POOL ID TIME that of the box that
// begins at an admission.
#![tactic(auto)]

mod boxed;
mod complaints;
mod input;
mod whole;

use streams::usage::arg_count;

fn main(rt: HostRuntime) {
    let usage = b"chart [POOL [ID TIME]] < LOG";
    if arg_count(&rt) < 3 {
        whole::draw(&rt, usage);
    } else {
        boxed::draw(&rt, usage);
    }
}
