// A plain program read, and the places of its literals marked, in one pass over its bytes.

#![tactic(auto)]

pub mod read;
