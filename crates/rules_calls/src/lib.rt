// The types of routes and answers that the rules and the code share. No function: the definitions are in specs/.
#![tactic(auto)]

// How a route ends: a frame, for a class; empty; empty, with a present own reservation on a tree; stuck at a return of a reservation.
#[derive(Clone, Copy)]
pub enum Got {
    Done { frame: usize, class: usize },
    Missed,
    MissedAt(usize),
    Stuck,
}

// The counts of a get: looks (entries read by walks) and tries (lower calls).
#[derive(Clone, Copy)]
pub struct Counts {
    pub looks: usize,
    pub tries: usize,
}

// How a route ends, and the counts.
#[derive(Clone, Copy)]
pub struct Routed {
    pub got: Got,
    pub counts: Counts,
}

// The walks of the searches: reserving near, reserving far, stealing.
#[derive(Clone, Copy)]
pub enum Walk {
    Near,
    Far,
    Stealing,
}

// The refusals, with document 01's numbers, in its order; Done, 0, is none of them.
#[derive(Clone, Copy)]
pub enum Refusal {
    Broken = 1,
    Order = 2,
    Bounds = 3,
    Misaligned = 4,
    Class = 5,
    Local = 6,
    Memory = 7,
    NotHeld = 8,
    Stuck = 9,
    Config = 10,
    Rows = 11,
}

// What a get that is done answers: the frame, and its class.
#[derive(Clone, Copy)]
pub struct Granted {
    pub frame: usize,
    pub class: usize,
}

// A get's answer, and its counts: a refused one names no frame and no class.
#[derive(Clone, Copy)]
pub struct Reply {
    pub granted: Result<Granted, Refusal>,
    pub looks: usize,
    pub tries: usize,
}

// A row of the statistics: the source's free and allocated frames, and the added column, frames in use.
#[repr(C)]
#[derive(Clone, Copy)]
pub struct Tally {
    pub free: usize,
    pub alloc: usize,
    pub used: usize,
}

// What statistics that are done answer: total free, free trees.
#[derive(Clone, Copy)]
pub struct Totals {
    pub free: usize,
    pub trees: usize,
}
