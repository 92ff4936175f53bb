// The first smaller model of a set: clauses over masks of the set's positions.

#![tactic(auto)]

pub mod find;
