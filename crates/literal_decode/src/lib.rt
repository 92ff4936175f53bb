// Five bytes asked whether they are a literal of a form: the kind byte first, then what stands behind it.

#![tactic(auto)]

mod kind;
pub mod range;
pub mod sign;
pub mod valid;
