// Bytes and numbers into a buffer: each function writes from a place on, as much as there is room for, and answers the place past it.
// A buffer and a place, and no struct of both: the run keeps the place from line to line and main the buffer, so that the struct would be made and taken apart at each line.
#![tactic(auto)]

ghost use Rattle.std.specs.Prelude.{◌≡◌, ◌++◌, ◌-◌};
ghost use Rattle.text_bytes.specs.Text.{text, byte, write, blanks};
ghost use Rattle.text_bytes.specs.Numbers.{decimal, hexadecimal, padded};

// One byte at `at`, where there is room.
pub fn put_byte(out: &mut [u8], at: usize, b: u8) -> usize
    ensures { text out.new result ≡ byte (text out.old at) b }
{
    if at >= out.len() {
        return at;
    }
    out[at] = b;
    at + 1
}

// The bytes of src from `at` on.
pub fn append(out: &mut [u8], at: usize, src: &[u8]) -> usize
    ensures { text out.new result ≡ write (text out.old at) src.now }
{
    let mut to = at;
    for b in src {
        to = put_byte(out, to, *b);
    }
    to
}

// n spaces.
fn spaces(out: &mut [u8], at: usize, n: usize) -> usize
    ensures { text out.new result ≡ write (text out.old at) (blanks n) }
{
    let mut to = at;
    for _ in 0..n {
        to = put_byte(out, to, b' ');
    }
    to
}

// A text, then a number in decimal digits.
pub fn put_number(out: &mut [u8], at: usize, before: &[u8], n: u64) -> usize
    ensures { text out.new result ≡ write (text out.old at) (before.now ++ decimal n) }
{
    let to = append(out, at, before);
    put_padded(out, to, n, 0)
}

// A number in decimal digits, spaces before it up to a width.
pub fn put_padded(out: &mut [u8], at: usize, n: u64, width: usize) -> usize
    ensures { text out.new result ≡ write (text out.old at) (padded width n) }
{
    let mut digits = [0u8; 20];
    let k = io::decimal(n, &mut digits);
    let to = spaces(out, at, width.saturating_sub(k));
    append(out, to, &digits[..k])
}

// A number in at least `width` small hexadecimal digits, at most 16.
pub fn put_hex(out: &mut [u8], at: usize, n: u64, width: usize) -> usize
    ensures { text out.new result ≡ write (text out.old at) (hexadecimal width n) }
{
    let mut digits = [0u8; 16];
    let k = io::hex(n, width, &mut digits);
    append(out, at, &digits[..k])
}
