// The first clash of a set, in the set's slice.

#![tactic(auto)]

pub mod clash;
