// The first wholly free block within one word of the bitmap, a row: by its lowest clear bit, or by halves.
#![tactic(auto)]

ghost use Rattle.std.specs.Prelude.{◌≡◌, ◌<◌, ◌≤◌};
ghost use Rattle.law_rules.specs.Block.{Block};
ghost use Rattle.law_rules.specs.Seek.{seek_in};
ghost use Rattle.law_rules.specs.WordSeek.{word, word_seek};

// The first wholly free block of the order `want` in the block `index` of the order `order` of a word, sought in its left half, then in its right half; 64 where there is none: with a `Found` in its place, which was tried and proved, a get of the orders 0 to 5 took a quarter longer.
fn seek_word(w: u64, order: usize, want: usize, index: usize) -> usize
    requires { (want ≤ order) × ((want < 6) × ((order ≤ 6) × Block (word w) order index)) }
    ensures { result ≡ word_seek w order want index }
{
    if order == want {
        if lower_blocks::word_free(w, order, index) {
            return index;
        }
        return 64;
    }
    let left = index * 2;
    let right = index * 2 + 1;
    if lower_blocks::word_held(w, order - 1, left) {
        return seek_word(w, order - 1, want, right);
    }
    let i = seek_word(w, order - 1, want, left);
    if i < 64 {
        return i;
    }
    seek_word(w, order - 1, want, right)
}

// The first wholly free block of the order `want` in a word; 64 where there is none. None before the lowest clear bit is free, so the block that holds it is tried first.
fn first_block(w: u64, want: usize) -> usize
    requires { want < 6 }
    ensures { result ≡ word_seek w 6 want 0 }
{
    let bit = lower_words::lowest_clear(w);
    if bit < 64 {
        let block = bit >> want;
        if lower_blocks::word_free(w, want, block) {
            return block;
        }
        return seek_word(w, 6, want, 0);
    }
    seek_word(w, 6, want, 0)
}

// The first wholly free block of the order `want` in a row.
pub fn seek_row(words: &[u64], want: usize, row: usize) -> Option<usize>
    requires { (want < 6) × Block words.now 6 row }
    ensures { result ≡ seek_in words.now 6 want row 0 }
{
    let i = first_block(words[row], want);
    let b = row * word_sizes::size(6 - want);
    if i < 64 {
        return Some(b + i);
    }
    None
}
