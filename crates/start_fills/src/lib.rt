// Every word of a lent buffer, as a start writes it: tree words, local words, bitmap words.
#![tactic(auto)]

ghost use Rattle.std.specs.Prelude.{◌≡◌, ◌^◌, ◌<◌, length};
ghost use Rattle.rules.specs.Base.{listed};
ghost use Rattle.rules_calls.specs.Calls.{fresh_tree, fresh_word};

// Every tree word: those of full trees, of the tree that the first f frames end in, of the others.
pub fn fill_trees(trees: &mut [u32], f: usize, default: usize)
    requires { length trees.old < 2 ^ 32 }
    ensures { trees.new ≡ listed (fresh_tree 11 default f) 0 (length trees.old) }
{
    let n = trees.len();
    let whole = f / 2048;
    let full = start_words::tree_word_at(default, 2048, 0);
    if whole < n {
        start_stores::fill(trees, 0, whole, full);
        start_stores::fill(
            trees,
            whole,
            whole + 1,
            start_words::tree_word_at(default, f, whole),
        );
        start_stores::fill(
            trees,
            whole + 1,
            n,
            start_words::tree_word_at(default, 0, 0),
        );
    } else {
        start_stores::fill(trees, 0, n, full);
    }
}

// Every local word: absent.
pub fn fill_locals(locals: &mut [u64])
    ensures { locals.new ≡ listed (λ j. 0) 0 (length locals.old) }
{
    locals.fill(0);
}

// Every bitmap word: those whose frames are all free, the one that the first f frames end in, the others.
pub fn fill_bits(bits: &mut [u64], f: usize)
    requires { length bits.old < 2 ^ 32 }
    ensures { bits.new ≡ listed (fresh_word f) 0 (length bits.old) }
{
    let n = bits.len();
    let whole = f / 64;
    if whole < n {
        start_stores::fill(bits, 0, whole, 0);
        start_stores::fill(bits, whole, whole + 1, start_words::bits_word_at(f, whole));
        start_stores::fill(bits, whole + 1, n, u64::MAX);
    } else {
        start_stores::fill(bits, 0, n, 0);
    }
}
