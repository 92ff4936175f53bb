// Definitions and laws alone: the place that each literal of the plain form has in a row of marks, and numbers by the marked places.

#![tactic(auto)]
