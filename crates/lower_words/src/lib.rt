// The bitmap's words, counted and passed over: 32 words a tree, bit i of word w is frame 64 w + i, 1 means held.
#![tactic(auto)]

ghost use Rattle.std.specs.Prelude.{◌≡◌, ◌+◌, ◌-◌, ◌*◌, ◌≤◌, length, eqb};
ghost use Rattle.rules.specs.Lower.{held, clear};
ghost use Rattle.law_rules.specs.Open.{open_from};
ghost use Rattle.law_rules.specs.LowestClear.{lowest_clear};

// How many frames of n whole words are held.
fn held_words(words: &[u64], at: usize, n: usize) -> usize
    requires { (n ≤ 32) × (at + n ≤ length words.now) }
    ensures { result ≡ held words.now (at * 64) (n * 64) }
{
    let mut sum = 0;
    for w in &words[at..at + n] {
        sum += w.count_ones() as usize;
    }
    sum
}

// The first of n words that has a clear bit; the word after them where none has.
pub fn open_word(words: &[u64], at: usize, n: usize) -> usize
    requires { at + n ≤ length words.now }
    ensures { result ≡ open_from words.now at n }
{
    for i in at..at + n {
        if words[i] != u64::MAX {
            return i;
        }
    }
    at + n
}

// Whether every frame of n whole words is held: none has a clear bit.
#[tactic(auto, using(law_rules::specs::Open::open_full))]
pub fn full_words(words: &[u64], at: usize, n: usize) -> bool
    requires { at + n ≤ length words.now }
    ensures { result ≡ eqb (held words.now (at * 64) (n * 64)) (n * 64) }
{
    open_word(words, at, n) == at + n
}

// The lowest clear bit of a word; 64 where there is none.
#[tactic(auto, unfolding(law_rules::specs::LowestClear::lowest_clear))]
pub fn lowest_clear(w: u64) -> usize
    ensures { result ≡ lowest_clear 64 w }
{
    w.trailing_ones() as usize
}

// The number of clear bits of a tree.
pub fn clear_in(words: &[u64], tree: usize) -> usize
    requires { tree * 32 + 32 ≤ length words.now }
    ensures { result ≡ clear 11 words.now tree }
{
    2048 - held_words(words, tree * 32, 32)
}

// Whether the bits at and past a frame are all set, up to the bitmap's end.
pub fn past_held(words: &[u64], frame: usize) -> bool
    ensures { result ≡ eqb (held words.now frame (length words.now * 64 - frame)) (length words.now * 64 - frame) }
{
    let at = frame / 64;
    if words.len() <= at {
        return true;
    }
    let s = frame % 64;
    words[at] >> s == u64::MAX >> s && full_words(words, at + 1, words.len() - (at + 1))
}
