// Keys sorted in their slice, each kept once: two runs made one, and sorting by it.

#![tactic(auto)]

mod merge;
pub mod sort;
