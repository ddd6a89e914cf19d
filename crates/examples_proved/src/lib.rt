// 01's examples that are proved, as one list that the checker computes against the definitions (specs/Examples.antt, proofs/Computed.antt).
#![tactic(auto)]
