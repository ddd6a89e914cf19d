// Idle parts and the figures: laws in proofs/ and the counterexample in specs/, no function. What an idle part is stands in theory_sets.
#![tactic(auto)]
