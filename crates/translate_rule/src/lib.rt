// What one rule becomes in a translation: the records of its rules, written into a lent slice.

#![tactic(auto)]

pub mod rules;
