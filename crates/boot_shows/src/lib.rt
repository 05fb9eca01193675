// The boot patterns on the store: a pattern's blocks are taken and given back, and it is held whole or not at all.
#![tactic(auto)]

ghost use Rattle.std.specs.Prelude.{◌≡◌, IfOk};
ghost use Rattle.boot_patterns.specs.Patterns.{frames_of};
ghost use Rattle.boot_shows.specs.Blocks.{HeldFrom};

use boot_patterns::Pattern;
use rules::Header;
use rules_calls::Granted;

// What is held of a pattern: how many frames, and the first frame of the block of each order, if it is held.
#[derive(Clone, Copy, Default)]
pub struct Held {
    pub frames: usize,
    pub first: [Option<usize>; 12],
}

// Takes a pattern's blocks, the largest first: the whole of it, or what was taken up to the first refusal.
fn take(
    h: Header,
    table: &[u32; 64],
    trees: &mut [u32],
    locals: &mut [u64],
    bits: &mut [u64],
    p: Pattern,
) -> Result<Held, Held>
    ensures frames { IfOk result (λ held. held.frames ≡ frames_of p) }
    ensures blocks { IfOk result (λ held. HeldFrom (frames_of p) held.first 0) }
{
    let wanted = boot_patterns::frames(p);
    let mut held = Held::default();
    for order in (0..12).rev() {
        if !boot_patterns::has_block(wanted, order) {
            continue;
        }
        let q = boot_patterns::request(p, order);
        let reply = get::get(h, table, trees, locals, bits, None, q);
        boot_says::got(p, order, reply);
        let Ok(Granted { frame, .. }) = reply.granted else {
            return Err(held);
        };
        held.first[order] = Some(frame);
        held.frames = boot_patterns::with_block(held.frames, order);
    }
    Ok(held)
}

// Gives back the blocks that are held of a pattern, with the class and local that they were taken with.
pub fn give(
    h: Header,
    table: &[u32; 64],
    trees: &mut [u32],
    locals: &mut [u64],
    bits: &mut [u64],
    p: Pattern,
    held: Held,
) {
    for order in (0..12).rev() {
        if let Some(frame) = held.first[order] {
            let q = boot_patterns::request(p, order);
            let outcome = put::put(h, table, trees, locals, bits, frame, q);
            boot_says::gave(p, order, outcome);
        }
    }
}

// A pattern is held whole; or what was taken is given back, and the dim pattern that is built in is shown in its place.
pub fn show(
    h: Header,
    table: &[u32; 64],
    trees: &mut [u32],
    locals: &mut [u64],
    bits: &mut [u64],
    p: Pattern,
) -> Held {
    match take(h, table, trees, locals, bits, p) {
        Ok(held) => {
            boot_says::shown(p);
            held
        }
        Err(part) => {
            give(h, table, trees, locals, bits, p, part);
            boot_says::built_in(p);
            Held::default()
        }
    }
}
