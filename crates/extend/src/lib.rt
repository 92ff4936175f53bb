// The extension of a source set.

#![tactic(auto)]

pub mod extend;
