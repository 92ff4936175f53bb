// A preference sheet's record.

#![tactic(auto)]

pub mod sheet;
