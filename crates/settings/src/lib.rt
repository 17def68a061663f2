// Settings as text (requests C-13 and C-18): a monitor's default, matcher, CONNECT settings and rules, so that they come back after a power cut. A text loads to a fresh monitor or to a number and a
// line; a monitor's settings are written, in the form that is asked for, as the one text that loads to them. The lines are read and written by `lines`, put together by `forms`, and a rule's by
// `rules_text`.
#![tactic(auto)]

pub mod convert;
pub mod dead;
mod dead_lines;
pub mod head;
pub mod load;
mod matcher;
pub mod read;
pub mod refusal;
mod rules;
pub mod told;
mod told_lines;
pub mod write;
