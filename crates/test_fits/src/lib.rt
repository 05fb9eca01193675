// What the functions behind the exported calls ask of their callers: a request that fits its header, room in a count.
#![tactic(auto)]

ghost use Rattle.test_fits.specs.Fits.{Fits};

use rules::{Header, Request};

// A header, and a request whose argument tests have passed.
#[derive(Clone, Copy)]
pub struct Ask {
    pub h: Header,
    pub q: Request,
    ghost fits: { Fits h q },
}
