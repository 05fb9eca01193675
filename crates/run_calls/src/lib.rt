// The calls that lines name, on the words lent, and their answers written into a buffer.
#![tactic(auto)]

use run_commands::Call;
use run_store::Setup;

// A call, with the lengths lent from now on, and its answer, written; the place past it.
pub fn call(
    setup: Setup,
    table: &[u32; 64],
    trees: &mut [u32],
    locals: &mut [u64],
    bits: &mut [u64],
    c: Call,
    out: &mut [u8],
    at: usize,
) -> usize {
    let h = setup.h;
    let lent = setup.lent(trees, locals, bits);
    let trees = &mut trees[..lent.trees];
    let locals = &mut locals[..lent.locals];
    let bits = &mut bits[..lent.bits];
    match c {
        Call::Start(all_free) => {
            let o = start::start(h, table, trees, locals, bits, all_free);
            run_answers::outcome(out, at, b"start ", o)
        }
        Call::Get { name, q } => {
            let r = get::get(h, table, trees, locals, bits, name, q);
            run_answers::reply(out, at, r)
        }
        Call::Put { frame, q } => {
            let o = put::put(h, table, trees, locals, bits, frame, q);
            run_answers::outcome(out, at, b"put ", o)
        }
        Call::Drain => {
            let o = drain::drain(h, table, trees, locals, bits);
            run_answers::outcome(out, at, b"drain ", o)
        }
        Call::Stats => {
            let s = stats_lent::report(h, table, trees, locals, bits, setup.rows);
            run_answers::stats(out, at, s)
        }
    }
}
