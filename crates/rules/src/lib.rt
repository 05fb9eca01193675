// The types that the rules and the code share. No function: the definitions are in specs/.
#![tactic(auto)]

// What the policy says of a pair of classes.
#[derive(Clone, Copy)]
pub enum Kind {
    Invalid,
    Steal,
    Demote,
    Match(usize),
}

// A tree's word taken apart.
#[derive(Clone, Copy)]
pub struct Tree {
    pub free: usize,
    pub reserved: bool,
    pub class: usize,
}

// A local's word taken apart.
#[derive(Clone, Copy)]
pub struct Local {
    pub row: usize,
    pub free: usize,
    pub present: bool,
}

// The header: frames, default class, and for each class its place: 0 where it is unconfigured, else its number of locals plus one.
#[repr(C)]
#[derive(Clone, Copy)]
pub struct Header {
    pub frames: usize,
    pub default: usize,
    pub places: [u8; 8],
}

// What a get or a put asks for, beside its frame; the local that it gives, by its index in the class.
#[derive(Clone, Copy)]
pub struct Request {
    pub order: usize,
    pub class: usize,
    pub local: Option<usize>,
}

// What a reserve or steal that is not refused answers: stolen in part, or reserved whole, with the frames that the entry had.
#[derive(Clone, Copy)]
pub enum Taken {
    Part(Tree),
    Whole(Tree, u32),
}

// What a local answers to a request: paid, at its row; too few, or another tree; absent.
#[derive(Clone, Copy)]
pub enum Held {
    Row(usize),
    Few { row: usize, free: usize },
    Absent,
}

// The local that pays, by its class and its slot in the lent words.
#[derive(Clone, Copy)]
pub struct Payer {
    pub class: usize,
    pub slot: usize,
}
