// The lent words of the locals: one read and stored, changed as a whole (another row, another local, absent); and whether a row lies in the named frame's tree. Total: a local that is not there reads as absent, and a store to it does nothing.
#![tactic(auto)]

ghost use Rattle.std.specs.Prelude.{◌≡◌, ◌^◌, ◌<◌, get_or, set};
ghost use Rattle.rules.specs.Words.{local_at, local_word};
ghost use Rattle.rules.specs.Locals.{in_tree, local_row, local_swap, local_clear};
ghost use Rattle.rules.specs.Base.{out};

use rules::Local;

// The word of a local.
pub fn word(locals: &[u64], j: usize) -> u64
    ensures { result ≡ get_or locals.now j 0 }
{
    word_fields::word_at(locals, j, 0)
}

// A slot has the word of this local from now on.
pub fn keep(locals: &mut [u64], j: usize, l: Local)
    ensures { locals.new ≡ set locals.old j (local_word l) }
{
    word_fields::store_at(locals, j, word_fields::local_word(l));
}

// The local in a slot of the lent words.
#[tactic(auto, unfolding(rules::specs::Words::local_of))]
pub fn load(locals: &[u64], j: usize) -> Local
    ensures { (result ≡ local_at locals.now j) × ((result.row < 2 ^ 44) × (result.free < 2 ^ 19)) }
{
    word_fields::local_of(word(locals, j))
}

// Whether a row is in the tree of the named frame, if one is named.
#[tactic(auto, unfolding(rules::specs::Locals::in_tree))]
pub fn in_tree(row: usize, name: Option<usize>) -> bool
    ensures { result ≡ in_tree 11 row name }
{
    match name {
        None => true,
        Some(f) => row / 32 == f / 2048,
    }
}

// A local goes on from this row.
#[tactic(auto, unfolding(rules::specs::Locals::local_row))]
pub fn set_start(locals: &mut [u64], j: usize, row: usize)
    ensures { locals.new ≡ local_row locals.old j row }
{
    let l = load(locals, j);
    keep(locals, j, Local { row, ..l });
}

// Store a local: the answer is the one that stood there.
#[tactic(auto, unfolding(rules::specs::Locals::local_swap))]
pub fn swap(locals: &mut [u64], j: usize, new: Local) -> Local
    ensures { (out result locals.new ≡ local_swap locals.old j new) × (result.free < 2 ^ 19) }
{
    let old = load(locals, j);
    keep(locals, j, new);
    old
}

// A local becomes absent: the answer is the one that stood there.
#[tactic(auto, unfolding(rules::specs::Locals::local_clear))]
pub fn clear(locals: &mut [u64], j: usize) -> Local
    ensures { (out result locals.new ≡ local_clear locals.old j) × (result.free < 2 ^ 19) }
{
    let gone = load(locals, j);
    word_fields::store_at(locals, j, 0);
    gone
}
