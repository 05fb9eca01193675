// The lengths of the lent buffers.
#![tactic(auto, using(std::proofs::lemmas::Bool::Decides::nat_tests), unfolding(rules_calls::specs::Standing::lengths_exact))]

ghost use Rattle.std.specs.Prelude.{◌≡◌, List, ℕ, ◌^◌, ◌≤◌};
ghost use Rattle.rules.specs.Words.{config};
ghost use Rattle.rules_calls.specs.Standing.{lengths_exact};

use rules::Header;

// Lent lengths are exact: n tree words, one local word per local, 32n bitmap words.
pub fn lengths_exact(h: Header, trees: &[u32], locals: &[u64], bits: &[u64]) -> bool
    requires { h.frames ≤ 2 ^ 21 }
    ensures { (pairs : List ℕ) → result ≡ lengths_exact (config h pairs) trees.now locals.now bits.now }
{
    let n = word_header::tree_count(h.frames);
    trees.len() == n && locals.len() == word_header::local_count(h) && bits.len() == 32 * n
}
