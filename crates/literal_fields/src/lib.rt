// A literal's three fields: taken from it, put as its five bytes, and as one number, by which literals stand in order.

#![tactic(auto)]

pub mod encode;
pub mod field;
pub mod order;
