// Machines made of blocks: definitions in specs/ and their laws in proofs/, no function.
#![tactic(auto)]
