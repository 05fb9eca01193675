// Laws of the policy table and of computed tests; of the bitmap, its blocks and its searches; of words, the tree order, sums, lists and the slots of locals: in specs/. No function.
#![tactic(auto)]
