// Demand 3 for the calls of the archive: the chains are in specs/, the proof is in proofs/. No function.
#![tactic(auto)]
