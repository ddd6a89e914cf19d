// Stock patterns: definitions in specs/ and their laws in proofs/, no function.
#![tactic(auto)]
