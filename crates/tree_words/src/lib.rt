// The lent tree words: an entry read, put, unreserved, synced; frames taken from it by a steal, by a reserve or steal. Total: an entry that is not there reads 0, and a store to it does nothing.
#![tactic(auto)]

ghost use Rattle.std.specs.Prelude.{◌≡◌, ◌^◌, ◌<◌, set};
ghost use Rattle.rules.specs.Base.{out};
ghost use Rattle.rules.specs.Words.{config, entry_at, tree_word};
ghost use Rattle.rules.specs.Entries.{entry_put, entry_unreserve, entry_sync, entry_steal, entry_reserve};
ghost use Rattle.rules.specs.declared.Header.{Header};

use rules::{Header, Taken, Tree};

// A tree has the word of this entry from now on.
fn keep(trees: &mut [u32], t: usize, entry: Tree)
    ensures { trees.new ≡ set trees.old t (tree_word entry) }
{
    word_fields::store_at(trees, t, word_fields::tree_word(entry));
}

// The entry of a tree.
#[tactic(auto, unfolding(rules::specs::Words::tree_of))]
pub fn load(trees: &[u32], t: usize) -> Tree
    ensures { (result ≡ entry_at trees.now t) × ((result.free < 2 ^ 28) × (result.class < 8)) }
{
    word_fields::tree_of(word_fields::word_at(trees, t, 0))
}

// Entry put: frames come back to an entry.
#[tactic(auto, unfolding(rules::specs::Entries::entry_put))]
pub fn put(h: Header, table: &[u32; 64], trees: &mut [u32], t: usize, n: usize)
    requires { (h.default < 8) × (n < 2 ^ 32) }
    ensures { trees.new ≡ entry_put (config h table.now) trees.old t n }
{
    let old = load(trees, t);
    keep(trees, t, word_entry::put(h, table, old, n));
}

// Unreserve: a holder of this class returns its frames to a reserved entry. No: the entry is unreserved, or the pair is not good.
#[tactic(auto, unfolding(rules::specs::Entries::entry_unreserve, rules::specs::Entries::keep_took))]
pub fn unreserve(
    h: Header,
    table: &[u32; 64],
    trees: &mut [u32],
    t: usize,
    class: usize,
    n: usize,
) -> Option<Tree>
    requires { (h.default < 8) × ((class < 8) × (n < 2 ^ 32)) }
    ensures { out result trees.new ≡ entry_unreserve (config h table.now) trees.old t class n }
{
    let old = load(trees, t);
    let whole = word_entry::unreserve(h, table, old, class, n)?;
    keep(trees, t, whole);
    Some(whole)
}

// Sync: all the frames of a reserved entry whose free is above the shortfall.
#[tactic(auto, unfolding(rules::specs::Entries::entry_sync, rules::specs::Entries::keep_sync))]
pub fn sync(trees: &mut [u32], t: usize, shortfall: usize) -> Option<u32>
    ensures { out result trees.new ≡ entry_sync trees.old t shortfall }
{
    let old = load(trees, t);
    let empty = word_entry::sync(old, shortfall)?;
    keep(trees, t, empty);
    Some(old.free as u32)
}

// Steal: the entry that is left, or a refusal.
#[tactic(auto, unfolding(rules::specs::Entries::entry_steal, rules::specs::Entries::keep_took))]
pub fn steal(table: &[u32; 64], trees: &mut [u32], t: usize, class: usize, n: usize) -> Option<Tree>
    requires { class < 8 }
    ensures { (h : Header) → out result trees.new ≡ entry_steal (config h table.now) trees.old t class n }
{
    let old = load(trees, t);
    let left = word_entry_takes::steal(table, old, class, n)?;
    keep(trees, t, left);
    Some(left)
}

// Reserve or steal: the entry that is left; with the whole of it, the frames that it had.
#[tactic(auto, unfolding(rules::specs::Entries::entry_reserve, rules::specs::Entries::keep_taken))]
pub fn reserve_or_steal(
    table: &[u32; 64],
    trees: &mut [u32],
    t: usize,
    class: usize,
    n: usize,
) -> Option<Taken>
    requires { class < 8 }
    ensures { (h : Header) → out result trees.new ≡ entry_reserve (config h table.now) trees.old t class n }
{
    let old = load(trees, t);
    let taken = word_entry_takes::reserve_or_steal(table, old, class, n)?;
    match taken {
        Taken::Part(entry) | Taken::Whole(entry, _) => keep(trees, t, entry),
    }
    Some(taken)
}
