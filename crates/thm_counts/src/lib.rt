// The counts of a get under their bounds: in specs/; of what the promise allows, in proofs/. No function.
#![tactic(auto)]
