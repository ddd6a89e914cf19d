// Cut sets and the dual structure: definitions in specs/ and their laws in proofs/, no function.
#![tactic(auto)]
