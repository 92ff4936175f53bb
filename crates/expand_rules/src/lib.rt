// The rules that preference sheets append, written by the tables.

#![tactic(auto)]

pub mod append;
