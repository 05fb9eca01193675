// The line runner: reads lines from standard input, makes the calls that they name on one store, and writes the answers to standard output.
#![tactic(auto)]

use run_commands::Command;
use run_input::Lines;
use run_store::Setup;

// What a line says, done, but for what it sets; the place past its answer.
fn obey(
    c: Command,
    input: &Lines,
    setup: Setup,
    table: &mut [u32; 64],
    trees: &mut [u32; 200],
    locals: &mut [u64; 256],
    bits: &mut [u64; 6400],
    out: &mut [u8; 262144],
) -> usize {
    let at = run_input::room(out, input.at);
    match c {
        Command::Nothing => at,
        Command::Wrong => run_answers::wrong(out, at, input.counted()),
        Command::Set(_) => at,
        Command::Store(s) => {
            run_store::store(table, trees, locals, bits, s);
            at
        }
        Command::Call(c) => run_calls::call(setup, table, trees, locals, bits, c, out, at),
        Command::Show(s) => run_pictures::show(setup, table, trees, locals, bits, s, out, at),
    }
}

// A proved loop has to end, and nothing says that the input does: so many turns at most. A turn is one line, or one read.
fn main(rt: HostRuntime) {
    let mut table = [0u32; 64];
    let mut trees = [0u32; 200];
    let mut locals = [0u64; 256];
    let mut bits = [0u64; 6400];
    let mut out = [0u8; 262144];
    let mut setup = Setup::new();
    let mut input = Lines::new();
    for _ in 0..u64::MAX {
        if let Some(e) = input.end() {
            let c = input.command(e);
            let to = obey(
                c,
                &input,
                setup,
                &mut table,
                &mut trees,
                &mut locals,
                &mut bits,
                &mut out,
            );
            setup = setup.after(c);
            input.pass(e, to);
        } else if input.more(&rt, &mut out).is_none() {
            return;
        }
    }
}
