// Worked cases of the definitions: in specs/. No function.
#![tactic(auto)]
