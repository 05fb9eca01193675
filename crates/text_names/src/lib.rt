// The numbers of outcomes with their names, written into a buffer.
#![tactic(auto)]

ghost use Rattle.std.specs.Prelude.{◌≡◌};
ghost use Rattle.text_bytes.specs.Text.{text, write};
ghost use Rattle.text_names.specs.Names.{name_at};

// A number of document 01, and its name; nothing for a number that has none.
#[tactic(auto, unfolding(text_bytes::specs::Text::say, crate::specs::Names::names, crate::specs::Names::name_at))]
fn named(n: usize) -> &'static [u8]
    ensures { result.now ≡ name_at n }
{
    match n {
        0 => b"0 Done",
        1 => b"1 Broken",
        2 => b"2 Order",
        3 => b"3 Bounds",
        4 => b"4 Misaligned",
        5 => b"5 Class",
        6 => b"6 Local",
        7 => b"7 Memory",
        8 => b"8 NotHeld",
        9 => b"9 Stuck",
        10 => b"10 Config",
        11 => b"11 Rows",
        _ => b"",
    }
}

// The same, written.
pub fn name(out: &mut [u8], at: usize, n: usize) -> usize
    ensures { text out.new result ≡ write (text out.old at) (name_at n) }
{
    text_bytes::append(out, at, named(n))
}
