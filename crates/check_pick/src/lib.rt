// Which open literal a search over clauses tries: positions counted, and chosen by their counts.

#![tactic(auto)]

mod count;
pub mod pick;

// How often each position stood in the masks that were added, for all positions at once: a position's digits in d7 to d0
// are its count, modulo 256.
#[derive(Clone, Copy, Default)]
pub struct Tally {
    pub d0: u64,
    pub d1: u64,
    pub d2: u64,
    pub d3: u64,
    pub d4: u64,
    pub d5: u64,
    pub d6: u64,
    pub d7: u64,
}
