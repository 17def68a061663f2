// What C and Rust may call where a hub's network task wakes with a run of packets, on byte slices (request C-12). It is an archive of its own: it has a monitor, which the calls of `jack` have not.
// Each function calls that of `wake` of its name, and promises the same: a crate is a library or a static library.
#![tactic(auto)]

pub mod task;
