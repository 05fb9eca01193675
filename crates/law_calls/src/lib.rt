// One law for each step of a call, for any claim on its answer; laws of the walk, its looks and the list of the best: in specs/. No function.
#![tactic(auto)]
