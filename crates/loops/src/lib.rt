// Inspections in a loop that owns the state, with no text around them, as a firmware's main loop would have them. It is what `bin/measure loop`
// measures against the Rust; nothing else uses it.
#![tactic(auto)]

pub mod inspections;
