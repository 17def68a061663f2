// A rule as text: four lines, read and written (document 01, "The trace"). A trace's opening and a settings text have such groups; where a rule goes, and what refuses it, is for whoever reads them.
#![tactic(auto)]

pub mod put;
pub mod read;
pub mod shown;
