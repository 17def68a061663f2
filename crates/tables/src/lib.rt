// One bucket, CONNECT window, payload tracker and rule at a time, and the choice of a place in each table
// (document 01, "Buckets", "CONNECT windows and payload trackers", `add_rule`). Deciders take one table and hand back the place and the new record;
// the monitor above stores it.
#![tactic(auto)]

pub mod buckets;
pub mod covers;
pub mod identity;
pub mod rules;
mod slots;
pub mod standing;
pub mod trackers;
pub mod windows;
