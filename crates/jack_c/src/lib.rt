// What C and Rust may call where a hub takes bytes off its jack, on byte slices (request C-11). It is an archive of its own: it keeps no monitor and needs little stack.
// Each function calls that of `jack` of its name, and promises the same: a crate is a library or a static library.
#![tactic(auto)]

pub mod reading;
