// What the loader says: a line for each answer, the figures, and what it does on each refusal.
#![tactic(auto)]

use boot_patterns::Pattern;
use rules_calls::{Granted, Refusal, Reply, Tally};
use stats_told::Stats;
use text_prints::Program;

// Says a text.
pub fn say(text: &[u8]) {
    text_prints::text(Program::Boot, text);
}

// What the loader does on a refusal.
fn action(x: Refusal) -> &'static [u8] {
    match x {
        Refusal::Broken => {
            b"the words are damaged: it leaves them for service, shows the built-in pattern, starts anew at the next boot"
        }
        Refusal::Order => b"an order above 11",
        Refusal::Bounds => b"a block past the last frame",
        Refusal::Misaligned => b"a frame that is no multiple of its block",
        Refusal::Class => b"a class that the board does not have",
        Refusal::Local => b"a local that the class does not have",
        Refusal::Memory => {
            b"no such block is free: it gives back what it took and shows the built-in pattern"
        }
        Refusal::NotHeld => {
            b"the block was not held: it reports the block and goes on with the next"
        }
        Refusal::Stuck => {
            b"cannot come after an accepted start, which is proved: it does as on Broken"
        }
        Refusal::Config => {
            b"the board's constants are wrong: it takes nothing and shows the built-in pattern"
        }
        Refusal::Rows => {
            b"other than eight rows lent: the loader's own error; it goes on without the figures"
        }
    }
}

// Whether a refusal is an error of the loader's own: one of those from Order to Local.
fn is_own_error(x: Refusal) -> bool {
    matches!(
        x,
        Refusal::Order | Refusal::Bounds | Refusal::Misaligned | Refusal::Class | Refusal::Local
    )
}

// Ends a line with the name of what a call answered, and a refusal with what the loader does.
fn ended(answer: Result<(), Refusal>) {
    text_prints::name(Program::Boot, c_numbers::number(answer));
    if let Err(x) = answer {
        say(b"\n    ");
        say(action(x));
        if is_own_error(x) {
            say(
                b": the loader's own error; it gives back what it took and shows the built-in pattern",
            );
        }
    }
    say(b"\n");
}

// A pattern's name.
fn pattern(p: Pattern) {
    say(match p {
        Pattern::Raster => b"raster",
        Pattern::FirstOverlay => b"first overlay",
        Pattern::SecondOverlay => b"second overlay",
    });
}

// A call on a pattern's block.
fn block(call: &[u8], p: Pattern, order: usize) {
    say(call);
    pattern(p);
    text_prints::form(Program::Boot, b", order %: ", [order, 0, 0, 0]);
}

// The frame and class of a get that is done.
fn done(frame: usize, class: usize) {
    text_prints::form(
        Program::Boot,
        b"0 Done, frame %, class %\n",
        [frame, class, 0, 0],
    );
}

// The answer to a get.
pub fn got(p: Pattern, order: usize, reply: Reply) {
    block(b"get ", p, order);
    match reply.granted {
        Ok(Granted { frame, class }) => done(frame, class),
        Err(x) => ended(Err(x)),
    }
}

// The answer to a put.
pub fn gave(p: Pattern, order: usize, outcome: Result<(), Refusal>) {
    block(b"put ", p, order);
    ended(outcome);
}

// What a call answered, but for the figures.
pub fn outcome(call: &[u8], answer: Result<(), Refusal>) {
    say(call);
    say(b": ");
    ended(answer);
}

// A pattern is held whole.
pub fn shown(p: Pattern) {
    pattern(p);
    say(b": all frames are held, the pattern is shown\n");
}

// A pattern could not be held.
pub fn built_in(p: Pattern) {
    pattern(p);
    say(b": the built-in pattern is shown in its place\n");
}

// The board that a boot is on.
pub fn board(frames: usize) {
    text_prints::form(
        Program::Boot,
        b"\nBoot on a board of % frames\n",
        [frames, 0, 0, 0],
    );
}

// A row of the statistics.
fn row(class: usize, t: Tally) {
    text_prints::form(
        Program::Boot,
        b"    class %: free %, alloc %, used %\n",
        [class, t.free, t.alloc, t.used],
    );
}

// The totals of the statistics.
fn totals(free: usize, trees: usize) {
    text_prints::form(
        Program::Boot,
        b"    free frames %, free trees %\n",
        [free, trees, 0, 0],
    );
}

// Whether all frames are free.
fn all_free(free: usize, frames: usize) {
    say(if free == frames {
        b"    all frames are free\n"
    } else {
        b"    not all frames are free\n"
    });
}

// The answer to statistics on a board of so many frames, with the rows of its two classes.
pub fn figures(frames: usize, report: Result<Stats, Refusal>) {
    match report {
        Ok(stats) => {
            let rows = stats.rows;
            let t = stats.totals;
            outcome(b"statistics", Ok(()));
            totals(t.free, t.trees);
            row(0, rows[0]);
            row(1, rows[1]);
            all_free(t.free, frames);
        }
        Err(x) => outcome(b"statistics", Err(x)),
    }
}
