// Changes of a design and lines of changes (01, "Records on disk"): definitions in specs/ and their laws in proofs/, no function.
#![tactic(auto)]
