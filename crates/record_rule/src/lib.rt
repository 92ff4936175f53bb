// A rule's record by itself.

#![tactic(auto)]

pub mod alone;
