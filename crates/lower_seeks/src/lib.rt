// The first wholly free block of a tree, sought by halves upward from a row, then from the tree's first.
#![tactic(auto)]

ghost use Rattle.std.specs.Prelude.{◌≡◌, ◌-◌, ◌*◌, ◌/◌, ◌^◌, ◌≤◌};
ghost use Rattle.rules.specs.Lower.{search_in};
ghost use Rattle.law_rules.specs.Block.{Block};
ghost use Rattle.law_rules.specs.Seek.{seek_in, passed_by};

// Whether the search upward from a row passes over a block: all of it lies before the row, or every frame of it is held.
#[tactic(auto, unfolding(law_rules::specs::Seek::passed_by))]
fn passed(words: &[u64], order: usize, index: usize, row: usize) -> bool
    requires { (6 ≤ order) × Block words.now order index }
    ensures { result ≡ passed_by words.now order index row }
{
    index < row >> (order - 6) || lower_blocks::is_held(words, order, index)
}

// The first wholly free block of the order `want`, upward from the one that holds the row's first frame, in the block `index` of the order `order`: sought in its left half, then in its right half.
fn seek(words: &[u64], order: usize, want: usize, index: usize, row: usize) -> Option<usize>
    requires { (6 ≤ order) × ((want ≤ order) × ((row / 2 ^ (order - 6) ≤ index) × Block words.now order index)) }
    ensures { result ≡ seek_in words.now order want index (row * 64 / 2 ^ want) }
{
    if order == want {
        if lower_blocks::is_free(words, order, index) {
            return Some(index);
        }
        return None;
    }
    if order == 6 {
        return lower_rows::seek_row(words, want, index);
    }
    let left = index * 2;
    let right = index * 2 + 1;
    if passed(words, order - 1, left, row) {
        return seek(words, order - 1, want, right, row);
    }
    match seek(words, order - 1, want, left, row) {
        Some(i) => Some(i),
        None => seek(words, order - 1, want, right, row),
    }
}

// The search in a row's tree, upward from the block that holds the row's first frame. A small block is tried first in the first row with a clear bit.
fn upward(words: &[u64], row: usize, want: usize) -> Option<usize>
    requires { (want ≤ 11) × Block words.now 11 (row / 32) }
    ensures { result ≡ seek_in words.now 11 want (row / 32) (row * 64 / 2 ^ want) }
{
    if want < 6 {
        let end = row / 32 * 32 + 32;
        let open = lower_words::open_word(words, row, end - row);
        if open == end {
            return None;
        }
        match lower_rows::seek_row(words, want, open) {
            Some(i) => Some(i),
            None => seek(words, 11, want, row / 32, row),
        }
    } else {
        seek(words, 11, want, row / 32, row)
    }
}

// The search in the hint row's tree: upward from the block that holds the row's first frame, then from the tree's first.
pub fn find(words: &[u64], row: usize, want: usize) -> Option<usize>
    requires { (want ≤ 11) × Block words.now 11 (row / 32) }
    ensures { result ≡ search_in 11 words.now (row / 32) want row }
{
    let from = row * 64 >> want;
    if lower_blocks::is_free(words, want, from) {
        return Some(from);
    }
    match upward(words, row, want) {
        Some(i) => Some(i),
        None => upward(words, row / 32 * 32, want),
    }
}
