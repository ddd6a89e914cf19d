// The figures of a structure, tail, signature, domination and importances: definitions in specs/ and their laws in proofs/, no function.
#![tactic(auto)]
