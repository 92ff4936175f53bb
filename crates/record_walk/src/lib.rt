// Going through the records of a program that was read: a record's length, and the tag and the options in it.
// A literal is named by its record and its place there, since its tag stands in the record's front.

#![tactic(auto)]

pub mod options;
pub mod records;
pub mod size;
