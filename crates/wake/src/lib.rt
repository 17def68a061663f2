// What C and Rust may call where a hub's network task wakes with a run of packets, on byte slices (request C-12). It is an archive of its own: it has a monitor, which the calls of `jack` have not.
#![tactic(auto)]

pub mod task;
