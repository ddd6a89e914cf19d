// Idle parts of a record, by part numbers (02, §9): definitions in specs/ and what taking them out does in proofs/, no function.
#![tactic(auto)]
