// Groups of parts taken out of a record, together or one after the other (02, §2): definitions in specs/ and their laws in proofs/, no function.
#![tactic(auto)]
