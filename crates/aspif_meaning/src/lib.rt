// Definitions and laws alone: ground programs over numbers and their answer sets, and the program over numbers that a plain
// program becomes.

#![tactic(auto)]
