// Exporting a plain program as an aspif text: the program is read, its literals are numbered, and its rules, constraints and names are
// written.

#![tactic(auto)]

pub mod aspif;
mod pass;
mod text;
