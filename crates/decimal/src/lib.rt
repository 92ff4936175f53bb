// Numbers in decimal figures, as bytes of a text: how many figures there are, and the figures put into a lent slice, or from a table into one
// number.

#![tactic(auto)]

pub mod decimal;
pub mod table;
