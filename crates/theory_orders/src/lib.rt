// What counting failure orders means, and what the counts are: definitions in specs/ and their laws in proofs/, no function.
#![tactic(auto)]
