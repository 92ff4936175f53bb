// A file's items told apart: its rules' records copied, its overrides and oppositions put into tables.

#![tactic(auto)]

pub mod collect;

// What the items that are gone came to.
#[derive(Clone, Copy)]
pub struct Sheets {
    // Where the rules' records end.
    pub to: usize,
    // Rules, overrides, and oppositions of different pairs.
    pub rules: usize,
    pub overrides: usize,
    pub pairs: usize,
}
