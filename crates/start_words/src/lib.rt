// The words of a start by value: the frames of a part, the word of a tree, the word of the bitmap.
#![tactic(auto)]

ghost use Rattle.std.specs.Prelude.{◌≡◌, ◌-◌, ◌*◌, ◌^◌, ◌<◌, ◌≤◌};
ghost use Rattle.rules_calls.specs.Calls.{at_most, fresh_tree, fresh_word};

use rules::Tree;

// Of the first f frames, how many are in the part i, where parts have this size.
fn share(size: usize, f: usize, i: usize) -> usize
    requires { (size ≤ 2048) × (i < 2 ^ 32) }
    ensures { (result ≡ at_most size (f - size * i)) × (result ≤ size) }
{
    f.saturating_sub(size * i).min(size)
}

// The word of tree t, where the first f frames are free: default class, unreserved.
#[tactic(auto, unfolding(rules_calls::specs::Calls::fresh_tree))]
pub fn tree_word_at(default: usize, f: usize, t: usize) -> u32
    requires { t < 2 ^ 32 }
    ensures { result ≡ fresh_tree 11 default f t }
{
    word_fields::tree_word(Tree {
        free: share(2048, f, t),
        reserved: false,
        class: default,
    })
}

// The bitmap word w, where the first f frames are free: their bits are clear, the others set.
pub fn bits_word_at(f: usize, w: usize) -> u64
    requires { w < 2 ^ 32 }
    ensures { result ≡ fresh_word f w }
{
    let n = share(64, f, w);
    if n < 64 { u64::MAX << n } else { 0 }
}
