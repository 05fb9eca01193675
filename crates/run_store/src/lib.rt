// The runner's store: what a line sets, the words that it stores, and the lengths that are lent.
#![tactic(auto)]

ghost use Rattle.std.specs.Prelude.{◌≤◌, length};

use rules::Header;
use run_commands::{Command, Setting, Store};

// What set-up lines set, the store but its words: the header, the lengths lent (the exact one where it is none), and the tally rows lent.
#[derive(Clone, Copy)]
pub struct Setup {
    pub h: Header,
    pub trees: Option<usize>,
    pub locals: Option<usize>,
    pub bits: Option<usize>,
    pub rows: usize,
}

// The header with another place for a class.
fn placed(h: Header, class: usize, place: u8) -> Header {
    let mut places = h.places;
    word_fields::store_at(&mut places, class, place);
    Header { places, ..h }
}

// Stores a word into `count` words from `from` on, as far as there are.
fn fill(words: &mut [u64], from: usize, count: usize, word: u64) {
    for place in words.iter_mut().skip(from).take(count) {
        *place = word;
    }
}

// A line that stores words.
pub fn store(
    table: &mut [u32; 64],
    trees: &mut [u32; 200],
    locals: &mut [u64; 256],
    bits: &mut [u64; 6400],
    s: Store,
) {
    match s {
        Store::Pair { at, word } => word_fields::store_at(table, at, word),
        Store::Entry { at, word } => word_fields::store_at(trees, at, word),
        Store::Local { at, word } => word_fields::store_at(locals, at, word),
        Store::Word { at, word } => word_fields::store_at(bits, at, word),
        Store::Fill { from, count, word } => fill(bits, from, count, word),
    }
}

// The trees of F frames; as many as there can be where F is past what a header may name.
fn exact_trees(frames: usize) -> usize
    ensures { result ≤ 1024 }
{
    word_header::tree_count(frames.min(0x20_0000))
}

// How many tree, local and bitmap words are lent.
#[derive(Clone, Copy)]
pub struct Lengths {
    pub trees: usize,
    pub locals: usize,
    pub bits: usize,
}

impl Setup {
    // At the beginning all is zero, and the exact lengths and eight rows are lent.
    pub fn new() -> Self {
        Setup {
            h: Header {
                frames: 0,
                default: 0,
                places: [0; 8],
            },
            trees: None,
            locals: None,
            bits: None,
            rows: 8,
        }
    }

    // A set-up line.
    fn set(self, s: Setting) -> Self {
        let h = self.h;
        match s {
            Setting::Frames(frames) => Setup {
                h: Header { frames, ..h },
                ..self
            },
            Setting::Default(default) => Setup {
                h: Header { default, ..h },
                ..self
            },
            Setting::Class { class, place } => Setup {
                h: placed(h, class, place),
                ..self
            },
            Setting::Lend {
                trees,
                locals,
                bits,
            } => Setup {
                trees,
                locals,
                bits,
                ..self
            },
            Setting::Rows(rows) => Setup { rows, ..self },
        }
    }

    // The store after a line: a set-up line changes it.
    pub fn after(self, c: Command) -> Self {
        match c {
            Command::Set(s) => self.set(s),
            _ => self,
        }
    }

    // The lengths lent, of these words.
    pub fn lent(self, trees: &[u32], locals: &[u64], bits: &[u64]) -> Lengths
        ensures trees { result.trees ≤ length trees.now }
        ensures locals { result.locals ≤ length locals.now }
        ensures bits { result.bits ≤ length bits.now }
    {
        let exact = exact_trees(self.h.frames);
        let t = self.trees.unwrap_or(exact);
        let l = self.locals.unwrap_or(word_header::local_count(self.h));
        let b = self.bits.unwrap_or(32 * exact);
        Lengths {
            trees: t.min(trees.len()),
            locals: l.min(locals.len()),
            bits: b.min(bits.len()),
        }
    }
}
