// The lines in an input buffer: where one ends, and moving what is left to the start.
ghost use Rattle.std.specs.Prelude.{◌<◌, ◌≤◌, IfSome, length};

// The place of the first line feed at or after `at`.
pub fn line_end(s: &[u8], at: usize) -> Option<usize>
    ensures { IfSome result (λ e. e < length s.now) }
{
    let to_end = s.get(at..)?.iter().position(|b| *b == b'\n')?;
    Some(at + to_end)
}

// Moves what stands from `from` up to `to` to the start, and answers how many bytes that is.
pub fn keep(s: &mut [u8], from: usize, to: usize) -> usize
    ensures { result ≤ length s.old }
{
    if to > s.len() || from > to {
        return 0;
    }
    s.copy_within(from..to, 0);
    to - from
}
