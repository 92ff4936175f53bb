// Definitions and laws alone: an aspif text as bytes, and what such a text says.

#![tactic(auto)]
