// The commands of the line form, each read from the words after its name; none where they are not its words. No function asks more of its arguments than their types.
#![tactic(auto)]

ghost use Rattle.std.specs.Prelude.{◌≤◌, IfSome};

use rules::Request;
use run_lines::Words;

// A line that sets the header, or what is lent; a length lent that is none is the exact one.
#[derive(Clone, Copy)]
pub enum Setting {
    Frames(usize),
    Default(usize),
    Class {
        class: usize,
        place: u8,
    },
    Lend {
        trees: Option<usize>,
        locals: Option<usize>,
        bits: Option<usize>,
    },
    Rows(usize),
}

// A line that stores words.
#[derive(Clone, Copy)]
pub enum Store {
    Pair {
        at: usize,
        word: u32,
    },
    Entry {
        at: usize,
        word: u32,
    },
    Local {
        at: usize,
        word: u64,
    },
    Word {
        at: usize,
        word: u64,
    },
    Fill {
        from: usize,
        count: usize,
        word: u64,
    },
}

// A call of the allocator.
#[derive(Clone, Copy)]
pub enum Call {
    Start(bool),
    Get { name: Option<usize>, q: Request },
    Put { frame: usize, q: Request },
    Drain,
    Stats,
}

// A line that only looks.
#[derive(Clone, Copy)]
pub enum Show {
    Dump,
    Sum,
    Look,
}

// What a line says: nothing, no command, or one of the four kinds.
#[derive(Clone, Copy)]
pub enum Command {
    Nothing,
    Wrong,
    Set(Setting),
    Store(Store),
    Call(Call),
    Show(Show),
}

// One number up to `most`, and no word more.
fn one(mut words: Words, most: u64) -> Option<usize> {
    let n = words.number(most)?;
    words.end()?;
    Some(n as usize)
}

// A place up to `last` and a word up to `most`, and no word more.
fn placed(mut words: Words, last: u64, most: u64) -> Option<(usize, u64)>
    ensures { IfSome result (λ p. p.1 ≤ most) }
{
    let at = words.number(last)?;
    let word = words.number(most)?;
    words.end()?;
    Some((at as usize, word))
}

// frames F
pub fn frames(words: Words) -> Option<Setting> {
    one(words, u64::MAX).map(Setting::Frames)
}

// default D
pub fn default_class(words: Words) -> Option<Setting> {
    one(words, 200).map(Setting::Default)
}

// class C K: the place of a class in the header is 0 where it is unconfigured, else its locals plus one.
pub fn class(mut words: Words) -> Option<Setting> {
    let class = words.number(7)?;
    let locals = words.optional(200)?;
    words.end()?;
    Some(Setting::Class {
        class: class as usize,
        place: locals.map_or(0, |n| n as u8 + 1),
    })
}

// lend T L B
pub fn lend(mut words: Words) -> Option<Setting> {
    let trees = words.optional(200)?;
    let locals = words.optional(256)?;
    let bits = words.optional(6400)?;
    words.end()?;
    Some(Setting::Lend {
        trees: trees.map(|n| n as usize),
        locals: locals.map(|n| n as usize),
        bits: bits.map(|n| n as usize),
    })
}

// rows R
pub fn rows(words: Words) -> Option<Setting> {
    one(words, 16).map(Setting::Rows)
}

// pair R T KIND CUT LOW HIGH
pub fn pair(mut words: Words) -> Option<Store> {
    let class = words.number(7)?;
    let tree = words.number(7)?;
    let kind = words.number(3)?;
    let cut = words.number(16383)?;
    let low = words.number(255)?;
    let high = words.number(255)?;
    words.end()?;
    Some(Store::Pair {
        at: (8 * class + tree) as usize,
        word: (kind + 4 * cut + 65536 * low + 16777216 * high) as u32,
    })
}

// entry I W
pub fn entry(words: Words) -> Option<Store> {
    let (at, word) = placed(words, 199, 4294967295)?;
    Some(Store::Entry {
        at,
        word: word as u32,
    })
}

// local I W
pub fn local(words: Words) -> Option<Store> {
    let (at, word) = placed(words, 255, u64::MAX)?;
    Some(Store::Local { at, word })
}

// word I W
pub fn bitmap_word(words: Words) -> Option<Store> {
    let (at, word) = placed(words, 6399, u64::MAX)?;
    Some(Store::Word { at, word })
}

// fill FROM COUNT W
pub fn fill(mut words: Words) -> Option<Store> {
    let from = words.number(6400)?;
    let count = words.number(6400 - from)?;
    let word = words.number(u64::MAX)?;
    words.end()?;
    Some(Store::Fill {
        from: from as usize,
        count: count as usize,
        word,
    })
}

// ORDER CLASS LOCAL, after FRAME.
fn request(mut words: Words) -> Option<Request> {
    let order = words.number(u64::MAX)?;
    let class = words.number(u64::MAX)?;
    let local = words.optional(u64::MAX)?;
    words.end()?;
    Some(Request {
        order: order as usize,
        class: class as usize,
        local: local.map(|n| n as usize),
    })
}

// get FRAME ORDER CLASS LOCAL
pub fn get(mut words: Words) -> Option<Call> {
    let frame = words.optional(u64::MAX)?;
    Some(Call::Get {
        name: frame.map(|n| n as usize),
        q: request(words)?,
    })
}

// put FRAME ORDER CLASS LOCAL
pub fn put(mut words: Words) -> Option<Call> {
    let frame = words.number(u64::MAX)?;
    Some(Call::Put {
        frame: frame as usize,
        q: request(words)?,
    })
}
