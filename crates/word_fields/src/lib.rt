// A tree's and a local's word taken apart and put together; a word of lent ones read and stored, of trees or of locals: past their end nothing is stored.
#![tactic(auto)]

ghost use Rattle.std.specs.Prelude.{◌≡◌, get_or, set};
ghost use Rattle.rules.specs.Words.{tree_of, tree_word, local_of, local_word};

use rules::{Local, Tree};

// A tree's word taken apart.
#[tactic(auto, unfolding(rules::specs::Words::tree_of))]
pub fn tree_of(w: u32) -> Tree
    ensures { result ≡ tree_of w }
{
    Tree {
        free: (w % 0x1000_0000) as usize,
        reserved: w / 0x1000_0000 % 2 == 1,
        class: (w / 0x2000_0000) as usize,
    }
}

// A tree's word put together.
#[tactic(auto, unfolding(rules::specs::Words::tree_word))]
pub fn tree_word(t: Tree) -> u32
    ensures { result ≡ tree_word t }
{
    let free = (t.free % 0x1000_0000) as u32;
    let class = (t.class % 8) as u32;
    free + 0x1000_0000 * u32::from(t.reserved) + 0x2000_0000 * class
}

// A local's word taken apart.
#[tactic(auto, unfolding(rules::specs::Words::local_of))]
pub fn local_of(w: u64) -> Local
    ensures { result ≡ local_of w }
{
    Local {
        row: (w % 0x1000_0000_0000) as usize,
        free: (w / 0x1000_0000_0000 % 0x8_0000) as usize,
        present: w / 0x8000_0000_0000_0000 == 1,
    }
}

// A local's word put together.
#[tactic(auto, unfolding(rules::specs::Words::local_word))]
pub fn local_word(l: Local) -> u64
    ensures { result ≡ local_word l }
{
    let row = (l.row % 0x1000_0000_0000) as u64;
    let free = (l.free % 0x8_0000) as u64;
    row + 0x1000_0000_0000 * free + 0x8000_0000_0000_0000 * u64::from(l.present)
}

// The word in a place of lent ones; `none` past their end.
pub fn word_at<T: Copy>(words: &[T], i: usize, none: T) -> T
    ensures { result ≡ get_or words.now i none }
{
    words.get(i).copied().unwrap_or(none)
}

// A place has this word from now on; past the end nothing is stored. By a test: with `get_mut` the proof of what is stored does not close.
#[tactic(auto, using(crate::specs::Past::set_past))]
pub fn store_at<T: Copy>(words: &mut [T], i: usize, w: T)
    ensures { words.new ≡ set words.old i w }
{
    if i < words.len() {
        words[i] = w;
    }
}
