// The lines of constraints and of names in an aspif text: measured and written, by the marked places of atoms.

#![tactic(auto)]

pub mod names;
pub mod pairs;
