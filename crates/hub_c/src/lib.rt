// What C and Rust may call, on numbers and byte slices (document 01, "callable from the Rust oracle's test host").
// Each function is one call of a lower crate and promises what that call promises. A slice passes as a pointer and a length.
// Each function calls that of `hub` of its name, and promises the same: a crate is a library or a static library.
#![tactic(auto)]

pub mod hashing;
pub mod matching;
pub mod tracing;
