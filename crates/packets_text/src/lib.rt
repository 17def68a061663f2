// A packet's messages as the lines of a trace (request C-11): so what was captured and an opening make a trace.
#![tactic(auto)]

mod message;
pub mod refusal;
pub mod written;
