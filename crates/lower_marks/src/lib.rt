// A block of the bitmap becomes held or free: a part of a word, or whole words.
#![tactic(auto)]

ghost use Rattle.std.specs.Prelude.{◌≡◌, true, false, not, ◌+◌, ◌-◌, ◌/◌, ◌%◌, ◌^◌, ◌<◌, ◌≤◌, length};
ghost use Rattle.rules.specs.Base.{pick};
ghost use Rattle.rules.specs.Lower.{put_field, full, mark, set_words, held_in};
ghost use Rattle.law_rules.specs.Block.{Block};

// The n frames of w from bit s on, none or all of which are held, the other way round.
fn put(w: u64, s: usize, n: usize, held: bool) -> u64
    requires { (w / 2 ^ s % 2 ^ n ≡ full (not held) n) × ((s < 64) × ((n < 64) × (s + n ≤ 64))) }
    ensures { result ≡ put_field w s n (full held n) }
{
    let field = ((1u64 << n) - 1) << s;
    if held { w + field } else { w - field }
}

// n words are x.
fn set_words(words: &mut [u64], at: usize, n: usize, x: u64)
    requires { at + n ≤ length words.old }
    ensures { words.new ≡ set_words words.old at n x }
{
    words[at..at + n].fill(x);
}

// A block that is free or held is the other from now on.
fn mark(words: &mut [u64], order: usize, block: usize, held: bool)
    requires block { Block words.old order block }
    requires block_value { held_in words.old order block ≡ pick held 0 (2 ^ order) }
    ensures { words.new ≡ mark held words.old order block }
{
    let n = word_sizes::size(order);
    let b = block * n;
    let q = b / 64;
    if order < 6 {
        words[q] = put(words[q], b % 64, n, held);
    } else {
        set_words(words, q, n / 64, if held { u64::MAX } else { 0 });
    }
}

// A free block is held.
pub fn hold(words: &mut [u64], order: usize, block: usize)
    requires block { Block words.old order block }
    requires block_value { held_in words.old order block ≡ 0 }
    ensures { words.new ≡ mark true words.old order block }
{
    mark(words, order, block, true);
}

// A held block is free.
pub fn release(words: &mut [u64], order: usize, block: usize)
    requires block { Block words.old order block }
    requires block_value { held_in words.old order block ≡ 2 ^ order }
    ensures { words.new ≡ mark false words.old order block }
{
    mark(words, order, block, false);
}
