// Clauses over masks of a set's positions, and what they force.

#![tactic(auto)]

pub mod force;

// What is left of a rule, over the positions of a set: in a mask with each position of the body stands one of the head.
#[derive(Clone, Copy)]
pub struct Clause {
    pub body: u64,
    pub head: u64,
}

// What a mask must have, and what it may have.
#[derive(Clone, Copy)]
pub struct Bounds {
    pub must: u64,
    pub may: u64,
}
