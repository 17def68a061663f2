// What the monitor asks of a topic's bytes. Hashes, the pattern test, the two matchers and three small tests, as in document 01's sections "Hashes" and "Topics,
// level by level"; and the test of strings of MQTT 3.1.1. Upper crates stand on the definitions of specs/ and the laws of proofs/, not on these bodies.
#![tactic(auto)]

pub mod covering;
pub mod hashes;
pub mod matching;
pub mod names;
pub mod patterns;
pub mod payload;
pub mod shown;
pub mod utf8;
