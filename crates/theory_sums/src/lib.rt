// Sums, whole numbers and repeated differences: definitions in specs/ and their laws in proofs/, no function.
#![tactic(auto)]
