// Where a program writes: standard output and standard error, and the line on standard error that says why the system refused a call.
// No contract can say what is written: these functions are safe and end, and have no `requires`.

use std::io::Error;

#[derive(Clone, Copy)]
pub enum Port {
    Output,
    Errors,
}

// Writes all the bytes and answers true, or false where that failed; some may be written then.
pub fn tell(rt: &HostRuntime, port: Port, bytes: &[u8]) -> bool {
    let written = match port {
        Port::Output => Print::write_all(&rt.stdout(), bytes),
        Port::Errors => Print::write_all(&rt.stderr(), bytes),
    };
    written.is_ok()
}

// The words of an error, without the number that std puts behind them.
fn words(text: &str) -> &str {
    match text.split_once(" (os error ") {
        Some((words, _)) => words,
        None => text,
    }
}

// What failed, as the caller names it, a colon and the system's words. Without memory the words are left out.
pub fn fail(rt: &HostRuntime, what: &[u8], error: Error) {
    tell(rt, Port::Errors, what);
    tell(rt, Port::Errors, b": ");
    if let Ok(text) = format!(in rt.alloc(); "{error}") {
        tell(rt, Port::Errors, words(text.as_str()).as_bytes());
    }
    tell(rt, Port::Errors, b"\n");
}
