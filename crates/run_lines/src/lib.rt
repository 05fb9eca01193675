// The words of a line: names, numbers and `-`; and the lines of a buffer. No exported function asks more of its arguments than their types.
#![tactic(auto)]

mod buffer;

ghost use Rattle.std.specs.Prelude.{◌≡◌, ◌≤◌, ◌↔◌, [], ◌∷◌, IfNone, IfSome, IsSome, drop, length};
ghost use Rattle.std.specs.Iterator.{YieldsFirstRef, item_count};
ghost use Rattle.std.specs.List.{HoldsAt, position_or_len};
ghost use Rattle.run_lines.specs.Line.{is_space, words_of, IsInDigits, IsNumber};

pub use buffer::{keep, line_end};

// The words of a line, which spaces part: what is left of it.
#[derive(Drop)]
pub struct Words<'a>(&'a [u8]);

impl<'a> Iterator for Words<'a> {
    type Item = &'a [u8];

    ghost next_gives = { YieldsFirstRef (λ w. words_of w.0.now) };

    ghost remaining = { item_count (λ w. words_of w.0.now) };

    fn next(&mut self) -> Option<&'a [u8]> {
        let start = self.0.iter().position(|b| *b != b' ')?;
        let line = &self.0[start..];
        let (word, left) = line.split_at(word_end(line));
        self.0 = left;
        Some(word)
    }
}

// Where the first space stands, or the length.
fn word_end(line: &[u8]) -> usize
    ensures first { result ≡ position_or_len is_space line.now }
    ensures within { result ≤ length line.now }
{
    line.iter().position(|b| *b == b' ').unwrap_or(line.len())
}

impl<'a> Words<'a> {
    // The words of a line, before the first.
    pub fn new(line: &'a [u8]) -> Self
        ensures { words_of result.0.now ≡ words_of line.now }
    {
        Words(line)
    }

    // The next word, where it is a number up to `most`.
    pub fn number(&mut self, most: u64) -> Option<u64>
        ensures bound { IfSome result (λ n. n ≤ most) }
        ensures read { IfSome result (λ n. HoldsAt (λ word. IsNumber word n) (words_of self.old.0.now) 0) }
        ensures left { words_of self.new.0.now ≡ drop 1 (words_of self.old.0.now) }
    {
        up_to(self.next()?, most)
    }

    // The next word, where it is a number up to `most`, or `-`, which is none.
    pub fn optional(&mut self, most: u64) -> Option<Option<u64>>
        ensures bound { IfSome result (λ given. IfSome given (λ n. n ≤ most)) }
        ensures read { IfSome result (λ given. IfSome given (λ n. HoldsAt (λ word. IsNumber word n) (words_of self.old.0.now) 0)) }
        ensures none { IfSome result (λ given. IfNone given (HoldsAt (λ word. word ≡ 45 ∷ []) (words_of self.old.0.now) 0)) }
        ensures left { words_of self.new.0.now ≡ drop 1 (words_of self.old.0.now) }
    {
        let word = self.next()?;
        if word == b"-".as_slice() {
            return Some(None);
        }
        Some(Some(up_to(word, most)?))
    }

    // Something where no word is left.
    pub fn end(&mut self) -> Option<()>
        ensures { IsSome result ↔ (words_of self.old.0.now ≡ []) }
    {
        match self.next() {
            Some(_) => None,
            None => Some(()),
        }
    }
}

// A word that is a number up to `most`.
fn up_to(word: &[u8], most: u64) -> Option<u64>
    ensures { IfSome result (λ n. (n ≤ most) × IsNumber word.now n) }
{
    value(word).filter(|n| *n <= most)
}

// A number in decimal digits, or in hexadecimal ones after `0x`.
fn value(word: &[u8]) -> Option<u64>
    ensures { IfSome result (IsNumber word.now) }
{
    match word.strip_prefix(b"0x") {
        Some(digits) => number(digits, 16),
        None => number(word, 10),
    }
}

// A number of one digit or more in a base, where it fits 64 bits; no sign stands before it.
fn number(digits: &[u8], base: u32) -> Option<u64>
    requires low { 2 ≤ base }
    requires high { base ≤ 36 }
    ensures { IfSome result (IsInDigits base digits.now) }
{
    if digits.first() == Some(&b'+') {
        return None;
    }
    let text = str::from_utf8(digits).ok()?;
    u64::from_str_radix(text, base).ok()
}
