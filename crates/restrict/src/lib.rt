// The restriction of a plain set: the set without its marks.

#![tactic(auto)]

pub mod restrict;
