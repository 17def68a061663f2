// A run of packets in one call (request C-12): a network task that wakes with dozens of messages hands over the bytes as they came, and gets a record for each message and the next state.
#![tactic(auto)]

mod received;
pub mod refusal;
pub mod run;
mod several;
