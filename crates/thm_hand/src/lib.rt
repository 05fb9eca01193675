// The standing rules with something in hand, as facts over the lent words, and the moves between such states: in specs/. No function.
#![tactic(auto)]
