// The calls of an assembly, on a state in a lent slice.

#![tactic(auto)]

pub mod call;
