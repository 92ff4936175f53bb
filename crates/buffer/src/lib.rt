// What a lent slice holds after a write; a byte and a number of two bytes put into a slice, and such a number read from one.
//
// Writers here and above take the whole lent slice and a place, not the part from there on: what is promised of a slice is one equation of
// all its bytes (`write`, `Wrote`), which would have to be put together again from a part's.

#![tactic(auto)]

pub mod get;
pub mod put;
