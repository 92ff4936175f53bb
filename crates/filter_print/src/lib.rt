// What the filter program prints.

#![tactic(auto)]

pub mod filter;
