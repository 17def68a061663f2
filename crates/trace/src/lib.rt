// Records and traces as text (document 01, "The trace"). Text comes in and text goes out, both lent by the caller; the
// lines themselves are read and written by the crate `lines`, and messages are inspected by `monitor`.
#![tactic(auto)]

pub mod groups;
pub mod reading;
pub mod record;
pub mod run;
pub mod seen;
pub mod standing;
mod standing_lines;
