// What locals hold, over all of them: each tree once, and how many of entries and locals are reserved and present.
#![tactic(auto, using(law_rules::specs::All::all_loop))]

ghost use Rattle.std.specs.Prelude.{◌≡◌, ◌≤◌, length};
ghost use Rattle.rules.specs.Base.{all_below};
ghost use Rattle.rules_calls.specs.Standing.{apart_before, reserved_count, present_count};
ghost use Rattle.test_apart.specs.Apart.{OnTrees};

use word_fields::{local_of, tree_of};

// Distinct locals hold distinct trees: the tree of each present local is marked, and was not marked before.
pub fn apart(locals: &[u64]) -> bool
    requires { OnTrees 11 locals.now }
    ensures { result ≡ all_below (length locals.now) (apart_before 11 locals.now) }
{
    let mut marks = [0u64; 16];
    for word in locals {
        let l = local_of(*word);
        if l.present {
            let tree = l.row / 32;
            if !lower_blocks::is_free(&marks, 0, tree) {
                return false;
            }
            lower_marks::hold(&mut marks, 0, tree);
        }
    }
    true
}

// The number of reserved entries: a sum, with no branch for a word.
#[tactic(auto, using(law_rules::specs::Sum::sum_loop), unfolding(rules_calls::specs::Standing::reserved_count))]
pub fn reserved_count(trees: &[u32]) -> usize
    ensures { result ≡ reserved_count trees.now (length trees.now) }
{
    let mut reserved = 0;
    for word in trees {
        reserved += usize::from(tree_of(*word).reserved);
    }
    reserved
}

// The number of present locals, a sum too.
#[tactic(auto, using(law_rules::specs::Sum::sum_loop), unfolding(rules_calls::specs::Standing::present_count))]
pub fn present_count(locals: &[u64]) -> usize
    ensures { result ≡ present_count locals.now (length locals.now) }
{
    let mut present = 0;
    for word in locals {
        present += usize::from(local_of(*word).present);
    }
    present
}
