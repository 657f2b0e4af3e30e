// The three demands, stated in specs/ of what the public calls promise, and proved in proofs/. No code.

#![tactic(auto)]
