// Two machines on one cart: definitions in specs/ and their laws in proofs/, no function.
#![tactic(auto)]
