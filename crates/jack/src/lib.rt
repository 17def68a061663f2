// What C and Rust may call where a hub takes bytes off its jack, on byte slices (request C-11). It is an archive of its own: it keeps no monitor and needs little stack.
#![tactic(auto)]

pub mod reading;
