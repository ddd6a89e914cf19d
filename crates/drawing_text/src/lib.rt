// The text of the drawing tool (02, §1): what it says, line by line, and how it is written; definitions in specs/ and their laws in proofs/,
// no function.
#![tactic(auto)]
