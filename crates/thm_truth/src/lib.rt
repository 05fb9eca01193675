// What statistics tell of a state that passes the standing rules: in specs/; of the call itself, in proofs/. No function.
#![tactic(auto)]
