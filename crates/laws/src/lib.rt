// Definitions and laws of booleans, lists and numbers that no crate owns. There is no code here; specs/ has three tests of lists, and
// proofs/ the laws that stand in every crate's proofs.
#![tactic(auto)]
