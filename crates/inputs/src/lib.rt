// A program and a set, read one behind the other.

#![tactic(auto)]

pub mod read;
