// Showing a rule's record: where it lies in its program, and the record itself.

#![tactic(auto)]

// Where a record lies in its slice.
#[derive(Clone, Copy)]
pub struct Extent {
    pub start: usize,
    pub size: usize,
}

pub mod show;
