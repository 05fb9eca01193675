// FNV-1a, 64 bit, over words taken as their bytes, lowest first.
#![tactic(auto)]

ghost use Rattle.std.specs.Prelude.{◌≡◌, ℕ, List};
ghost use Rattle.run_sums.specs.Fnv.{basis, fnv_byte, fnv_word, fnv_from, Sums, sums};

const BASIS: u64 = 14695981039346656037;

const PRIME: u64 = 1099511628211;

// The sum with a word of n bytes more.
fn with_word(h: u64, word: u64, n: usize) -> u64
    ensures { result ≡ fnv_word n h word }
{
    let mut sum = h;
    let mut left = word;
    for _ in 0..n {
        sum = (sum ^ left % 256).wrapping_mul(PRIME);
        left /= 256;
    }
    sum
}

// A word whose bytes a sum takes.
pub trait Word: Copy {
    // The sum with a word more, and with words more.
    ghost with: { ℕ → Self → ℕ };

    ghost from: { ℕ → List Self → ℕ };

    ghost laws: { Sums with from };

    fn added_to(self, sum: u64) -> u64
        ensures { result ≡ with sum self };
}

// A tree word has four bytes.
impl Word for u32 {
    ghost with = { fnv_word 4 };

    ghost from = { fnv_from 4 };

    ghost laws = { sums 4 };

    fn added_to(self, sum: u64) -> u64 {
        with_word(sum, u64::from(self), 4)
    }
}

// A local word or a bitmap word has eight.
impl Word for u64 {
    ghost with = { fnv_word 8 };

    ghost from = { fnv_from 8 };

    ghost laws = { sums 8 };

    fn added_to(self, sum: u64) -> u64 {
        with_word(sum, self, 8)
    }
}

// The sum of words.
pub fn fnv<W: Word>(words: &[W]) -> u64
    ensures { result ≡ W.from basis words.now }
{
    let mut sum = BASIS;
    for word in words {
        sum = word.added_to(sum);
    }
    sum
}
