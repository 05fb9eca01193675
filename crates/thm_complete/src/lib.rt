// Two answers that satisfy a promise for the same input are equal: in specs/. No function.
#![tactic(auto)]
