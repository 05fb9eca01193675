// The standing rules of the entries: one pass over them and the bitmap.
#![tactic(auto, using(std::proofs::lemmas::Bool::Decides::nat_tests, law_rules::specs::All::all_loop), unfolding(rules_calls::specs::Standing::entry_stands))]

ghost use Rattle.std.specs.Prelude.{◌≡◌, List, ℕ, ◌+◌, ◌*◌, ◌≤◌, length};
ghost use Rattle.rules.specs.Base.{all_below};
ghost use Rattle.rules.specs.Words.{config};
ghost use Rattle.rules.specs.declared.Header.{Header};
ghost use Rattle.rules_calls.specs.Standing.{entry_stands};

use rules::Header;

// Entry free at most 2,048, class configured; with no reservation entry free is the number of clear bits.
fn entry_stands(places: &[u8; 8], trees: &[u32], bits: &[u64], t: usize) -> bool
    requires { t * 32 + 32 ≤ length bits.now }
    ensures { (h : Header) (pairs : List ℕ) → places.now ≡ h.places
        → result ≡ entry_stands (config h pairs) trees.now bits.now t }
{
    let e = tree_words::load(trees, t);
    e.free <= 2048
        && word_header::configured_in(places, e.class)
        && (e.reserved || e.free == lower_words::clear_in(bits, t))
}

// Each entry stands.
pub fn entries_stand(h: Header, trees: &[u32], bits: &[u64]) -> bool
    requires { length bits.now ≡ 32 * length trees.now }
    ensures { (pairs : List ℕ) → result ≡ all_below (length trees.now) (entry_stands (config h pairs) trees.now bits.now) }
{
    for t in 0..trees.len() {
        if !entry_stands(&h.places, trees, bits, t) {
            return false;
        }
    }
    true
}
