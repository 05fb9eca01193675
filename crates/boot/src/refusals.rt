// Each refusal by a call that gives it, and what the loader does then; only Stuck has none.
use rules::{Header, Request};
use rules_calls::Refusal;

// The refusals that a call gives, in turn.
const GIVEN: [Refusal; 10] = [
    Refusal::Broken,
    Refusal::Order,
    Refusal::Bounds,
    Refusal::Misaligned,
    Refusal::Class,
    Refusal::Local,
    Refusal::Memory,
    Refusal::NotHeld,
    Refusal::Config,
    Refusal::Rows,
];

// One frame, of class 0, with no local: the board has the classes 0 and 1, and a class the locals 0 and 1.
const FRAME: Request = Request {
    order: 0,
    class: 0,
    local: None,
};

// What the call asks for that is to be refused with x.
fn request(x: Refusal) -> Request {
    match x {
        Refusal::Order => Request { order: 12, ..FRAME },
        Refusal::Misaligned => Request { order: 1, ..FRAME },
        Refusal::Class => Request { class: 2, ..FRAME },
        Refusal::Local => Request {
            local: Some(2),
            ..FRAME
        },
        _ => FRAME,
    }
}

// The frame that it names: the one past the last, one that is no multiple of 2, one that is held, or none.
fn name(frames: usize, x: Refusal) -> Option<usize> {
    match x {
        Refusal::Bounds => Some(frames),
        Refusal::Misaligned => Some(1),
        Refusal::Memory => Some(0),
        _ => None,
    }
}

// A drain on a tree word too few.
fn short_drain(
    h: Header,
    table: &[u32; 64],
    trees: &mut [u32],
    locals: &mut [u64],
    bits: &mut [u64],
) -> Result<(), Refusal> {
    match trees.split_last_mut() {
        Some((_, short)) => drain::drain(h, table, short, locals, bits),
        None => Ok(()),
    }
}

// The answer of the call that is to be refused with x.
fn answer(
    h: Header,
    table: &[u32; 64],
    trees: &mut [u32],
    locals: &mut [u64],
    bits: &mut [u64],
    x: Refusal,
) -> Result<(), Refusal> {
    let q = request(x);
    match x {
        Refusal::Broken => short_drain(h, table, trees, locals, bits),
        // with the other class as default the table is not accepted
        Refusal::Config => start::start(
            Header { default: 0, ..h },
            table,
            trees,
            locals,
            bits,
            true,
        ),
        Refusal::NotHeld => put::put(h, table, trees, locals, bits, 1, q),
        Refusal::Rows => {
            stats_lent::report(h, table, trees, locals, bits, 7)?;
            Ok(())
        }
        _ => {
            get::get(h, table, trees, locals, bits, name(h.frames, x), q).granted?;
            Ok(())
        }
    }
}

// What the call is.
fn call(x: Refusal) -> &'static [u8] {
    match x {
        Refusal::Broken => b"drain on a tree word too few",
        Refusal::Order => b"get of order 12",
        Refusal::Bounds => b"get of the frame past the last",
        Refusal::Misaligned => b"get of frame 1 at order 1",
        Refusal::Class => b"get for class 2",
        Refusal::Local => b"get with local 2",
        Refusal::Memory => b"get of frame 0, which is held",
        Refusal::NotHeld => b"put of frame 1, which is free",
        Refusal::Stuck => b"no call",
        Refusal::Config => b"start with default 0",
        Refusal::Rows => b"statistics with seven rows",
    }
}

// The store of which frame 0 alone is held: a start, and the get that names it.
fn hold_first(
    h: Header,
    table: &[u32; 64],
    trees: &mut [u32],
    locals: &mut [u64],
    bits: &mut [u64],
) {
    let started = start::start(h, table, trees, locals, bits, true);
    boot_says::outcome(b"start", started);
    let reply = get::get(h, table, trees, locals, bits, Some(0), FRAME);
    boot_says::outcome(b"get of frame 0", reply.granted.map(|_| ()));
}

// Each of them by its call.
fn refuse(h: Header, table: &[u32; 64], trees: &mut [u32], locals: &mut [u64], bits: &mut [u64]) {
    for x in GIVEN {
        let answered = answer(h, table, trees, locals, bits, x);
        boot_says::outcome(call(x), answered);
    }
}

// Each refusal, on a store of which frame 0 alone is held; last the one that no call gives.
pub fn show(h: Header, table: &[u32; 64], trees: &mut [u32], locals: &mut [u64], bits: &mut [u64]) {
    boot_says::say(b"\nWhat the loader does on each refusal\n");
    hold_first(h, table, trees, locals, bits);
    refuse(h, table, trees, locals, bits);
    boot_says::outcome(call(Refusal::Stuck), Err(Refusal::Stuck));
}
