// Sets of literals as A: records: reading one, and membership in its slice.

#![tactic(auto)]

pub mod header;
pub mod members;
pub mod read;
