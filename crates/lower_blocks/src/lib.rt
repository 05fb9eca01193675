// Whether a block of the bitmap, or of one word, is wholly free or wholly held.
#![tactic(auto)]

ghost use Rattle.std.specs.Prelude.{◌≡◌, ◌+◌, ◌*◌, ◌/◌, ◌%◌, ◌^◌, ◌<◌, ◌≤◌, length, eqb};
ghost use Rattle.rules.specs.Lower.{held, held_in};
ghost use Rattle.law_rules.specs.Block.{Block};
ghost use Rattle.law_rules.specs.WordSeek.{word};

// The n bits of w from bit s on.
fn part(w: u64, s: usize, n: usize) -> u64
    requires { (s < 64) × (n < 64) }
    ensures { result ≡ w / 2 ^ s % 2 ^ n }
{
    (w >> s) % (1u64 << n)
}

// Whether no frame of n whole words is held.
fn zero_words(words: &[u64], at: usize, n: usize) -> bool
    requires { at + n ≤ length words.now }
    ensures { result ≡ eqb (held words.now (at * 64) (n * 64)) 0 }
{
    words[at..at + n].iter().all(|w| *w == 0)
}

// Whether no frame of a block is held.
pub fn is_free(words: &[u64], order: usize, block: usize) -> bool
    requires { Block words.now order block }
    ensures { result ≡ eqb (held_in words.now order block) 0 }
{
    let n = word_sizes::size(order);
    let b = block * n;
    let q = b / 64;
    if order < 6 {
        part(words[q], b % 64, n) == 0
    } else {
        zero_words(words, q, n / 64)
    }
}

// Whether every frame of a block is held.
pub fn is_held(words: &[u64], order: usize, block: usize) -> bool
    requires { Block words.now order block }
    ensures { result ≡ eqb (held_in words.now order block) (2 ^ order) }
{
    let n = word_sizes::size(order);
    let b = block * n;
    let q = b / 64;
    if order < 6 {
        part(words[q], b % 64, n) == (1u64 << n) - 1
    } else {
        lower_words::full_words(words, q, n / 64)
    }
}

// Whether no frame of a block within a word is held. A word by value: as `is_free(&[w], order, block)`, which was tried and proved, a get of the orders 0 to 5 took a fifth longer; the same of `word_held`.
pub fn word_free(w: u64, order: usize, block: usize) -> bool
    requires { (order < 6) × Block (word w) order block }
    ensures { result ≡ eqb (held_in (word w) order block) 0 }
{
    let n = word_sizes::size(order);
    part(w, block * n, n) == 0
}

// Whether every frame of a block within a word is held.
pub fn word_held(w: u64, order: usize, block: usize) -> bool
    requires { (order < 6) × Block (word w) order block }
    ensures { result ≡ eqb (held_in (word w) order block) (2 ^ order) }
{
    let n = word_sizes::size(order);
    part(w, block * n, n) == (1u64 << n) - 1
}
