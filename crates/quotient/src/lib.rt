// The quotient of a program by a set of literals, written as a plain program.

#![tactic(auto)]

mod pass;
pub mod quotient;
