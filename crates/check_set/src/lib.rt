// The check of a proposed set: the verdict on a program and a set that were read, and the operation around it.

#![tactic(auto)]

use literal::RuleNo;

// What a check finds. A smaller model stands as an A: record at the start of the lent output.
#[derive(Clone, Copy)]
pub enum Verdict {
    // The position, from 1, of the first literal whose opposite is in the set.
    Clash(usize),
    // The number of the first rule whose remainder in the quotient does not hold.
    Broken(RuleNo),
    // The length in bytes of the first smaller model's record.
    Smaller(usize),
    Yes,
}

mod decide;
mod judge;
pub mod proposed;
