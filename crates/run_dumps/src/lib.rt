// The words lent as lines that store them, and their sums.
#![tactic(auto)]

ghost use Rattle.std.specs.Prelude.{◌<◌};

// A word, if it is not 0, as the line that stores it.
fn dump_word(name: &[u8], i: usize, w: u64, out: &mut [u8], at: usize) -> usize {
    if w == 0 {
        return at;
    }
    let to = text_bytes::put_number(out, at, name, i as u64);
    let to = text_bytes::append(out, to, b" 0x");
    let to = text_bytes::put_hex(out, to, w, 1);
    text_bytes::put_byte(out, to, b'\n')
}

// The words that are not 0.
fn dump_words<W: Copy + Into<u64>>(name: &[u8], words: &[W], out: &mut [u8], at: usize) -> usize {
    let mut to = at;
    for (i, word) in words.iter().enumerate() {
        to = dump_word(name, i, (*word).into(), out, to);
    }
    to
}

// Each lent word that is not 0, then the end.
pub fn dump(trees: &[u32], locals: &[u64], bits: &[u64], out: &mut [u8], at: usize) -> usize {
    let to = dump_words(b"entry ", trees, out, at);
    let to = dump_words(b"local ", locals, out, to);
    let to = dump_words(b"word ", bits, out, to);
    text_bytes::append(out, to, b"end\n")
}

// The sums of the lent words.
pub fn sum(trees: &[u32], locals: &[u64], bits: &[u64], out: &mut [u8], at: usize) -> usize {
    let to = text_bytes::append(out, at, b"sum ");
    let to = text_bytes::put_hex(out, to, run_sums::fnv(trees), 16);
    let to = text_bytes::put_byte(out, to, b' ');
    let to = text_bytes::put_hex(out, to, run_sums::fnv(locals), 16);
    let to = text_bytes::put_byte(out, to, b' ');
    let to = text_bytes::put_hex(out, to, run_sums::fnv(bits), 16);
    text_bytes::put_byte(out, to, b'\n')
}
