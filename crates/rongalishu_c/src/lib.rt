// The static library: each call of `rongalishu` as a C function of the same name, with the same clauses. A crate is built for crates above it
// or for C, not for both, so the calls stand there and are exported here.
// kept: the C interface: each call stands twice, since C needs every name exported with its own clauses.
#![tactic(auto)]

mod boxes;
mod events;
mod lanes;
mod notices;
mod pools;
mod reports;
mod saving;
