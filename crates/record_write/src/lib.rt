// Records written into a lent slice: headers, end records, runs of bytes, refusals.

#![tactic(auto)]

pub mod copy;
pub mod records;
pub mod refusal;
