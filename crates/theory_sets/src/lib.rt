// Sets of parts as masks, and structures as set functions on masks: definitions in specs/ and their laws in proofs/, no function.
#![tactic(auto)]
