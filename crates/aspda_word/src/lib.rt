// Answers as 64-bit words, as the exported functions give them (specs/Words.antt).

#![tactic(auto)]

pub mod word;
