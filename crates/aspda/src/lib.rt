// What users link: every entry point as a function of C's calling convention, on slices and numbers.
// Each answers one 64-bit word (crate `aspda_word`); include/aspda.h declares them for C.

#![tactic(auto)]

pub mod exports;
