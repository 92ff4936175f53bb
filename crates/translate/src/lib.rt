// Translating a source into a plain program: the source is read, its translation measured, and then written rule by rule.

#![tactic(auto)]

mod pass;
pub mod translate;
