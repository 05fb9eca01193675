// A word stored into lent words from one place up to another.
#![tactic(auto)]

ghost use Rattle.std.specs.Prelude.{◌≤◌, length};
ghost use Rattle.start_stores.specs.Fill.{Filled};

// Stores a word into lent words, of trees, locals or the bitmap, from one place up to another.
pub fn fill<T: Copy>(words: &mut [T], from: usize, to: usize, w: T)
    requires { (from ≤ to) × (to ≤ length words.old) }
    ensures { Filled from to w words.old words.new }
{
    for word in words[from..to].iter_mut() {
        *word = w;
    }
}
