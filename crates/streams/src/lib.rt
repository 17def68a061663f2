// Whole streams, for the programs: all of an input or none of it, all of an output or a word that it is not. What a reader or a writer moves, and the errno that its error holds, are std's word,
// which has it from the C library.
#![tactic(auto)]

pub mod descriptor;
pub mod input;
pub mod output;
pub mod said;
pub mod turn;
pub mod words;
