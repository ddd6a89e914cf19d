// A group's shares by two routes, and that both are the counts: definitions in specs/ and their laws in proofs/, no function.
#![tactic(auto)]
