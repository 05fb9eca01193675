// The boot loader: the firmware's first caller, and the example of how the library is called. It starts the store, takes the frames of the
// boot patterns (crate `boot_shows`), gives them back, drains, and reports each answer. No refusal is passed over: the crate `boot_says` has what the
// loader does on each, the module `refusals` a call for each but Stuck.
#![tactic(auto)]

mod refusals;

ghost use Rattle.std.specs.Prelude.{◌≡◌, replicate};
ghost use Rattle.rules.specs.Words.{config};
ghost use Rattle.rules_calls.specs.Calls.{outcome_of};
ghost use Rattle.boot_board.specs.Board.{Ready, board};

use boot_patterns::Pattern;
use boot_shows::Held;
use rules::Header;
use rules_calls::Refusal;

// The figures of the store.
fn figures(h: Header, table: &[u32; 64], trees: &[u32], locals: &[u64], bits: &[u64]) {
    let report = stats_lent::report(h, table, trees, locals, bits, 8);
    boot_says::figures(h.frames, report);
}

// The patterns in the order in which they are shown.
const PATTERNS: [Pattern; 3] = [
    Pattern::Raster,
    Pattern::FirstOverlay,
    Pattern::SecondOverlay,
];

// The patterns are taken in turn.
fn take_all(
    h: Header,
    table: &[u32; 64],
    trees: &mut [u32],
    locals: &mut [u64],
    bits: &mut [u64],
) -> [Held; 3] {
    let mut held = [Held::default(); 3];
    for (n, p) in PATTERNS.iter().enumerate() {
        held[n] = boot_shows::show(h, table, trees, locals, bits, *p);
    }
    held
}

// What is held of them is given back.
fn give_all(
    h: Header,
    table: &[u32; 64],
    trees: &mut [u32],
    locals: &mut [u64],
    bits: &mut [u64],
    held: [Held; 3],
) {
    for (n, p) in PATTERNS.iter().enumerate() {
        boot_shows::give(h, table, trees, locals, bits, *p, held[n]);
    }
}

// The calls after an accepted start: the patterns are taken and given back, and after a drain all frames are free again.
fn serve(h: Header, table: &[u32; 64], trees: &mut [u32], locals: &mut [u64], bits: &mut [u64]) {
    let held = take_all(h, table, trees, locals, bits);
    figures(h, table, trees, locals, bits);
    give_all(h, table, trees, locals, bits, held);
    let drained = drain::drain(h, table, trees, locals, bits);
    boot_says::outcome(b"drain", drained);
    figures(h, table, trees, locals, bits);
}

// The store starts with all frames free. On a header, a table and lengths that are accepted it is Done.
fn start(
    h: Header,
    table: &[u32; 64],
    trees: &mut [u32],
    locals: &mut [u64],
    bits: &mut [u64],
) -> Result<(), Refusal>
    requires { Ready (config h table.now) trees.old locals.old bits.old }
    ensures { outcome_of result ≡ 0 }
{
    start::start(h, table, trees, locals, bits, true)
}

// A boot on lent words. A start that is refused would end it; that the starts of both boards are Done is proved.
fn boot(h: Header, table: &[u32; 64], trees: &mut [u32], locals: &mut [u64], bits: &mut [u64])
    requires { Ready (config h table.now) trees.old locals.old bits.old }
{
    boot_says::board(h.frames);
    let started = start(h, table, trees, locals, bits);
    boot_says::outcome(b"start", started);
    if started.is_ok() {
        serve(h, table, trees, locals, bits);
    }
}

// The store of a board: its header, its table and its words.
#[derive(Drop)]
struct Store<const TREES: usize, const BITS: usize> {
    h: Header,
    table: [u32; 64],
    trees: [u32; TREES],
    locals: [u64; 4],
    bits: [u64; BITS],
}

impl<const TREES: usize, const BITS: usize> Store<TREES, BITS> {
    // That of a board of so many frames; the words are zeros.
    fn new(frames: usize) -> Self
        ensures { Ready (board frames) (replicate TREES 0) (replicate 4 0) (replicate BITS 0) → Ready (config result.h result.table) result.trees result.locals result.bits }
    {
        Store {
            h: boot_board::header(frames),
            table: boot_board::table(),
            trees: [0u32; TREES],
            locals: [0u64; 4],
            bits: [0u64; BITS],
        }
    }
}

// Both boards, the second too small for the raster; then the refusals, on a store of the small one.
fn main() {
    let mut s = Store::<32, 1024>::new(boot_board::FRAMES);
    boot(s.h, &s.table, &mut s.trees, &mut s.locals, &mut s.bits);
    let mut s = Store::<1, 32>::new(boot_board::SMALL);
    boot(s.h, &s.table, &mut s.trees, &mut s.locals, &mut s.bits);
    let mut s = Store::<1, 32>::new(boot_board::SMALL);
    refusals::show(s.h, &s.table, &mut s.trees, &mut s.locals, &mut s.bits);
}
