// What programs mean: rules, quotients, answer sets, the translation, and the one-to-one match of answer sets.
// Definitions (specs/) and laws (proofs/) alone: this layer sees no byte, and no code is proved here.

#![tactic(auto)]
