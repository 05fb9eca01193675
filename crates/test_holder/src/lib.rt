// The standing rules of a present local, the holder of a tree.
#![tactic(auto, using(std::proofs::lemmas::Bool::Decides::nat_tests), unfolding(rules_calls::specs::Standing::holder_stands))]

ghost use Rattle.std.specs.Prelude.{◌≡◌, ◌^◌, ◌<◌};
ghost use Rattle.rules.specs.Words.{config};
ghost use Rattle.rules_calls.specs.Standing.{holder_stands};
ghost use Rattle.test_lengths.specs.Exact.{Exact};

use rules::{Header, Local};

// Of a present local: its tree exists, the entry is reserved, the pair good, and entry free plus its free the number of clear bits.
pub fn holder_stands(
    h: Header,
    table: &[u32; 64],
    trees: &[u32],
    bits: &[u64],
    class: usize,
    l: Local,
) -> bool
    requires { Exact (config h table.now) trees.now bits.now × ((class < 8) × (l.free < 2 ^ 19)) }
    ensures { result ≡ holder_stands (config h table.now) trees.now bits.now class l }
{
    let t = l.row / 32;
    if word_header::tree_count(h.frames) <= t {
        return false;
    }
    let e = tree_words::load(trees, t);
    e.reserved
        && word_policy::is_good(table, class, e.class)
        && e.free + l.free == lower_words::clear_in(bits, t)
}
