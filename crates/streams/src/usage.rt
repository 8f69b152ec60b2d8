// Whether a program was given as many arguments as it takes, and the line on standard error that says what is wrong, which begins with a
// question mark. No contract can say what is read and written: these functions are safe and end, and have no `requires`.

use crate::ports::{Port, tell};
use std::env::FillError;
use std::rt::Env;

// What is wrong, and with what.
pub fn complain(rt: &HostRuntime, what: &[u8], wrong: &[u8]) {
    tell(rt, Port::Errors, b"? ");
    tell(rt, Port::Errors, what);
    tell(rt, Port::Errors, wrong);
    tell(rt, Port::Errors, b"\n");
}

// Whether an argument begins with a dash, as no number and none of the words of a program's usage but its options does.
fn is_option(rt: &HostRuntime, i: usize) -> bool {
    let mut first = [0u8; 1];
    let _ = rt.arg(i, &mut first);
    first[0] == b'-'
}

// How many arguments the program was started with, its own name among them.
pub fn arg_count(rt: &HostRuntime) -> usize {
    let mut first = [0u8; 1];
    for i in 0..usize::MAX {
        if let Err(FillError::NotPresent) = rt.arg(i, &mut first) {
            return i;
        }
    }
    usize::MAX
}

// Whether there are from so many to so many arguments, the program's own name among them, and no option at the place of the first that
// is none.
pub fn are_right(rt: &HostRuntime, first: usize, least: usize, most: usize, usage: &[u8]) -> bool {
    let given = arg_count(rt);
    if is_option(rt, first) {
        complain(rt, b"unknown argument: usage: ", usage);
        return false;
    }
    if given < least {
        complain(rt, b"too few arguments: usage: ", usage);
        return false;
    }
    if most < given {
        complain(rt, b"too many arguments: usage: ", usage);
        return false;
    }
    true
}

// The same for one number of arguments, with no option before them.
pub fn count_is(rt: &HostRuntime, many: usize, usage: &[u8]) -> bool {
    are_right(rt, 1, many, many, usage)
}
