// The part of a set that a mask of positions picks, as an A: record.

#![tactic(auto)]

pub mod witness;
