// The lower: what a get finds in the bitmap and takes, what a put gives back. 32 words a tree, bit i of word w is frame 64 w + i, 1 means held.
#![tactic(auto)]

ghost use Rattle.std.specs.Prelude.{◌≡◌, ◌≤◌};
ghost use Rattle.rules.specs.Base.{out};
ghost use Rattle.rules.specs.Lower.{has_tree, lower_find, lower_get, lower_put};

// Whether the bitmap has the words of a tree.
#[tactic(auto, unfolding(rules::specs::Lower::has_tree))]
fn has_tree(words: &[u64], tree: usize) -> bool
    ensures { result ≡ has_tree 11 words.now tree }
{
    words.len() <= 32768 && tree < words.len() / 32
}

// The block that a get would take: the named one if it is wholly free, or the first free one of the hint row's tree.
#[tactic(auto, unfolding(rules::specs::Lower::lower_find))]
fn find_block(words: &[u64], row: usize, order: usize, name: Option<usize>) -> Option<usize>
    requires { order ≤ 11 }
    ensures { result ≡ lower_find 11 words.now row order name }
{
    match name {
        None if has_tree(words, row / 32) => lower_seeks::find(words, row, order),
        Some(f) if has_tree(words, f / 2048) && lower_blocks::is_free(words, order, f >> order) => {
            Some(f >> order)
        }
        _ => None,
    }
}

// The lower's get: the first frame of the block that it takes. Total: in a tree that is not there nothing is found.
#[tactic(auto, unfolding(rules::specs::Lower::lower_get, rules::specs::Lower::lower_take))]
pub fn lower_get(words: &mut [u64], row: usize, order: usize, name: Option<usize>) -> Option<usize>
    requires { order ≤ 11 }
    ensures { out result words.new ≡ lower_get 11 words.old row order name }
{
    let j = find_block(words, row, order, name)?;
    let f = j * word_sizes::size(order);
    lower_marks::hold(words, order, j);
    Some(f)
}

// The lower's put: whether every frame of the block was held; their bits are then clear. Total: a tree that is not there holds nothing.
#[tactic(auto, unfolding(rules::specs::Lower::lower_put))]
pub fn lower_put(words: &mut [u64], order: usize, frame: usize) -> bool
    requires { order ≤ 11 }
    ensures { out result words.new ≡ lower_put 11 words.old order frame }
{
    let block = frame >> order;
    if !has_tree(words, frame / 2048) || !lower_blocks::is_held(words, order, block) {
        return false;
    }
    lower_marks::release(words, order, block);
    true
}
