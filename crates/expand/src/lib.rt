// A source's normal form: its rules, and behind them those that its preference sheets append, with no sheet.

#![tactic(auto)]

// What was written: how many bytes there are, and whether sheet records are among them.
#[derive(Clone, Copy)]
pub struct Made {
    pub size: usize,
    pub sheeted: bool,
}

pub mod normal;
pub mod with;

// So many bytes are enough for the normal form of any source: its own, and 17 for each of 8,192 rules.
pub const NORMAL: usize = 203652;
