// What lines that only look answer: the words lent as lines, their sums, and the picture.
#![tactic(auto)]

use rules::Header;
use run_commands::Show;
use run_store::Setup;
use text_prints::Program;

mod look;

// The answer to a line that looks, at these words. The picture is written at once, behind the answers before it.
fn show_these(
    h: Header,
    table: &[u32; 64],
    trees: &[u32],
    locals: &[u64],
    bits: &[u64],
    s: Show,
    out: &mut [u8],
    at: usize,
) -> usize {
    match s {
        Show::Dump => run_dumps::dump(trees, locals, bits, out, at),
        Show::Sum => run_dumps::sum(trees, locals, bits, out, at),
        Show::Look => {
            text_prints::front(Program::Runner, out, at);
            look::look(h, table, trees, locals, bits);
            0
        }
    }
}

// The answer to a line that looks, at the words lent.
pub fn show(
    setup: Setup,
    table: &[u32; 64],
    trees: &[u32],
    locals: &[u64],
    bits: &[u64],
    s: Show,
    out: &mut [u8],
    at: usize,
) -> usize {
    let lent = setup.lent(trees, locals, bits);
    show_these(
        setup.h,
        table,
        &trees[..lent.trees],
        &locals[..lent.locals],
        &bits[..lent.bits],
        s,
        out,
        at,
    )
}
