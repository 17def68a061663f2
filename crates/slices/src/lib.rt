// What is asked of the bytes of a lent slice, whatever they mean. Topics, lines of text and, later, packets stand on it.
#![tactic(auto)]

pub mod bytes;
