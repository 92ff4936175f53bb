// Which overrides' tags head an option: the heads of a program's rules, put into tables.

#![tactic(auto)]

pub mod heads;
