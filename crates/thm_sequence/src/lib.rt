// Demand 3, that no call sticks, and which outcomes change nothing: the statements are in specs/, the proofs in proofs/. No function.
#![tactic(auto)]
