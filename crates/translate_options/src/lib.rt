// What a translation has for each option of a defeasible rule: its marks, and rules (4), (5) and (6), written into a lent slice.

#![tactic(auto)]

pub mod marks;
pub mod options;
