// The tables by which code sees what preference sheets append: overrides as positions of masks, options as places.

#![tactic(auto)]

pub mod place;
pub mod sheets;

// A place for each tag of a source, each option and each sheet record of a kind.
pub const TAG_PLACES: usize = 201;

pub const OPTION_PLACES: usize = 1002;

pub const SHEET_PLACES: usize = 64;
