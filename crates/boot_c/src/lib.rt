// What C and Rust may call where a hub starts, on byte slices: settings that come back after a power cut. It is an archive of its own, apart from `hub`: so each of the two makes its monitor in one
// place, which the compiler builds into its caller, and neither reaches deeper for the other.
// Each function calls that of `boot` of its name, and promises the same: a crate is a library or a static library.
#![tactic(auto)]

pub mod saving;
