// The marks that a program's rules add to a set, collected as keys.

#![tactic(auto)]

pub mod marks;
