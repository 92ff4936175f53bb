// A rule's line in an aspif text: its fields, measured and written.

#![tactic(auto)]

pub mod fields;
pub mod lines;
pub mod numbering;
pub mod rules;
pub mod word;
