// Document 01's marked examples, stated in specs/ and proved in proofs/, on the definitions that the contracts name.

#![tactic(auto)]
