// Literals as numbers, their keys, and keys written as literals.

#![tactic(auto)]

pub mod write;
