// Bytes as text, read and written, in `key=value` lines (document 01, "The trace"). Traces today, settings, saved state and monthly
// figures later all use it; it knows nothing of monitors.
#![tactic(auto)]

pub mod held;
pub mod lengths;
pub mod put;
pub mod read;
pub mod value;
mod words;
