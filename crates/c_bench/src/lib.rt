// Exported names for the bench alone: thin calls of single parts. The product's archive has none of them.
#![tactic(auto)]

use rules::Header;

// The clear bits of the whole trees of a bitmap.
#[unsafe(no_mangle)]
pub extern "C" fn bench_clear(words: &[u64]) -> usize {
    let n = words.len() / 32;
    let mut sum: usize = 0;
    for t in 0..n {
        sum = std::num::wrapping_add_usize(sum, lower_words::clear_in(words, t));
    }
    sum
}

// The lower's get of order 0 of any frame from a hint row on: the frame, or 2^64 - 1 where there is none.
#[unsafe(no_mangle)]
pub extern "C" fn bench_lower_get(words: &mut [u64], row: usize) -> usize {
    lower::lower_get(words, row, 0, None).unwrap_or(0xffff_ffff_ffff_ffff)
}

// The acceptance test.
#[unsafe(no_mangle)]
pub extern "C" fn bench_accepts(h: Header, table: &[u32; 64]) -> bool {
    test_accept::accepts(h, table)
}

// The whole state test.
#[unsafe(no_mangle)]
pub extern "C" fn bench_stands(
    h: Header,
    table: &[u32; 64],
    trees: &[u32],
    locals: &[u64],
    bits: &[u64],
) -> bool {
    test_state::stands(h, table, trees, locals, bits)
}
