// What C and Rust may call at the support desk, on byte slices. It is an archive of its own, apart from `hub`: what is only asked at a desk takes no room on the part, and the compiler goes on
// building the calls of `hub` around their one caller each.
#![tactic(auto)]

pub mod covering;
pub mod standing;
