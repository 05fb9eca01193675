// The whole of the statistics by value: total free and free trees.
#![tactic(auto, using(law_rules::specs::Sum::sum_loop), unfolding(crate::specs::Wholes::entries_free, crate::specs::Wholes::entries_whole, crate::specs::Wholes::locals_free, crate::specs::Wholes::locals_whole, rules_calls::specs::Statistics::total_free, rules_calls::specs::Statistics::free_trees))]

ghost use Rattle.std.specs.Prelude.{◌≡◌, List, ℕ, ◌^◌, ◌<◌, ◌≤◌};
ghost use Rattle.rules.specs.Words.{config};
ghost use Rattle.rules_calls.specs.Statistics.{total_free, free_trees};
ghost use Rattle.stats_totals.specs.Wholes.{entries_free, entries_whole, locals_free, locals_whole};

use rules::Header;
use rules_calls::Totals;

// Total free and free trees of the first n entries. By places: in a loop over the words the check does not find that past their end nothing is added.
fn entries_whole(trees: &[u32], n: usize) -> Totals
    requires { n ≤ 1024 }
    ensures { (result.free ≡ entries_free trees.now n) × ((result.trees ≡ entries_whole 11 trees.now n)
        × ((result.free ≤ 2 ^ 38) × (result.trees ≤ 2 ^ 38))) }
{
    let mut free: usize = 0;
    let mut whole: usize = 0;
    for t in 0..n {
        let e = tree_words::load(trees, t);
        free += e.free;
        whole += e.free / 2048;
    }
    Totals { free, trees: whole }
}

// Total free and free trees of the first n locals.
fn locals_whole(locals: &[u64], n: usize) -> Totals
    requires { n < 2048 }
    ensures { (result.free ≡ locals_free locals.now n) × ((result.trees ≡ locals_whole 11 locals.now n)
        × ((result.free ≤ 2 ^ 38) × (result.trees ≤ 2 ^ 38))) }
{
    let mut free: usize = 0;
    let mut whole: usize = 0;
    for j in 0..n {
        let l = local_words::load(locals, j);
        free += l.free;
        whole += l.free / 2048;
    }
    Totals { free, trees: whole }
}

// Total free sums entries and locals; free trees are each entry's and each local's, rounded down, then summed.
pub fn totals(h: Header, trees: &[u32], locals: &[u64]) -> Totals
    requires { h.frames ≤ 2 ^ 21 }
    ensures { ((pairs : List ℕ) → result.free ≡ total_free (config h pairs) trees.now locals.now)
        × ((pairs : List ℕ) → result.trees ≡ free_trees (config h pairs) trees.now locals.now) }
{
    let a = entries_whole(trees, word_header::tree_count(h.frames));
    let b = locals_whole(locals, word_header::local_count(h));
    Totals {
        free: a.free + b.free,
        trees: a.trees + b.trees,
    }
}
