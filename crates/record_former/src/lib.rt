// Design records as they were while part numbers reached 2^32-1, kept for one claim: records accepted until then read as before (02, §7).
// Definitions in specs/ and theorems in proofs/, no function.
#![tactic(auto)]
