// A program's rules as clauses over the positions of a set's literals, and the first rule that is broken.

#![tactic(auto)]

// How many options are left, where any is, and their positions.
#[derive(Clone, Copy)]
pub struct Left {
    pub count: usize,
    pub mask: u64,
}

pub mod build;
pub mod masks;
mod options;
mod rule;
