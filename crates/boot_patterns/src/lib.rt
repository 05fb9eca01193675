// The boot patterns: of each its frames, as which blocks, and for which class and local they are taken.
#![tactic(auto)]

ghost use Rattle.std.specs.Prelude.{◌≡◌, ◌+◌, ℕ, ◌*◌, ◌/◌, ◌%◌, ◌^◌, ◌<◌, ◌≤◌, eqb};
ghost use Rattle.rules_calls.specs.Calls.{refusal};
ghost use Rattle.boot_board.specs.Board.{board};
ghost use Rattle.boot_patterns.specs.Patterns.{frames_of};

use rules::Request;

// The picture and the two overlays that lie over it.
#[derive(Clone, Copy)]
pub enum Pattern {
    Raster,
    FirstOverlay,
    SecondOverlay,
}

// The frames of 2,048 x 1,080 pixels of so many bytes each.
fn plane(bytes: usize) -> usize
    requires { bytes ≤ 7 }
    ensures { result ≡ 540 * bytes }
{
    (2048 * 1080 * bytes + 4095) / 4096
}

// The frames of a pattern: 6 bytes a pixel, or 1.
pub fn frames(p: Pattern) -> usize
    ensures { result ≡ frames_of p }
{
    match p {
        Pattern::Raster => plane(6),
        Pattern::FirstOverlay | Pattern::SecondOverlay => plane(1),
    }
}

// Whether n frames, fewer than 4,096, have a block of this order: their blocks are the binary digits of n.
pub fn has_block(n: usize, order: usize) -> bool
    requires { order < 12 }
    ensures { result ≡ eqb (n / 2 ^ order % 2) 1 }
{
    (n >> order) % 2 == 1
}

// So many frames with a block more.
pub fn with_block(frames: usize, order: usize) -> usize
    requires { (frames ≤ 2 ^ 32) × (order < 12) }
    ensures { result ≡ frames + 2 ^ order }
{
    frames + word_sizes::size(order)
}

// The class: 1 for what lives long, 0 for the overlays.
fn class(p: Pattern) -> usize
    ensures { result < 2 }
{
    match p {
        Pattern::Raster => 1,
        Pattern::FirstOverlay | Pattern::SecondOverlay => 0,
    }
}

// The local: the overlays have one each, so that they fill different trees.
fn local(p: Pattern) -> usize
    ensures { result < 2 }
{
    match p {
        Pattern::Raster | Pattern::FirstOverlay => 0,
        Pattern::SecondOverlay => 1,
    }
}

// What a get or a put of a pattern's block asks for. Such a get is not refused for its arguments, with Order, Bounds, Misaligned, Class or Local.
pub fn request(p: Pattern, order: usize) -> Request
    requires { order < 12 }
    ensures { (frames : ℕ) → 2048 ≤ frames → refusal (board frames) result 0 ≡ 0 }
{
    Request {
        order,
        class: class(p),
        local: Some(local(p)),
    }
}
