// What C and Rust may call at the support desk, on byte slices. It is an archive of its own, apart from `hub`: what is only asked at a desk takes no room on the part, and the compiler goes on
// building the calls of `hub` around their one caller each.
// Each function calls that of `desk` of its name, and promises the same: a crate is a library or a static library.
#![tactic(auto)]

pub mod covering;
pub mod standing;
