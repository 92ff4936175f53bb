// Literals numbered: the places of those that occur are marked, the marks are counted, and a literal's number is looked up.

#![tactic(auto)]

pub mod block;
pub mod marks;
pub mod numbers;
pub mod place;
