// What a header says: the configured classes, their numbers of locals and where these stand, the number of trees. By value, or by lent places.
#![tactic(auto)]

ghost use Rattle.std.specs.Prelude.{◌≡◌, ◌^◌, ◌<◌, ◌≤◌};
ghost use Rattle.rules.specs.Base.{sum};
ghost use Rattle.rules.specs.Words.{tree_count, configured, locals_of, slot, local_count};

use rules::Header;

// Whether a class is configured: lent places, so that none are copied.
#[tactic(auto, unfolding(rules::specs::Words::configured))]
pub fn configured_in(places: &[u8; 8], class: usize) -> bool
    requires { class < 8 }
    ensures { result ≡ configured places.now class }
{
    0 < places[class]
}

// The number of locals of a class, by lent places.
#[tactic(auto, unfolding(rules::specs::Words::locals_of))]
pub fn locals_in(places: &[u8; 8], class: usize) -> usize
    requires { class < 8 }
    ensures { (result ≡ locals_of places.now class) × (result < 256) }
{
    usize::from(places[class]).saturating_sub(1)
}

// Whether a class is configured.
pub fn is_configured(h: Header, class: usize) -> bool
    requires { class < 8 }
    ensures { result ≡ configured h.places class }
{
    configured_in(&h.places, class)
}

// The number of locals of a class.
pub fn locals_of(h: Header, class: usize) -> usize
    requires { class < 8 }
    ensures { (result ≡ locals_of h.places class) × (result < 256) }
{
    locals_in(&h.places, class)
}

// The slot of a class's first local in the lent words: as many locals stand before it. A loop, since the check does not find that an iterator's sum fits.
#[tactic(auto, unfolding(rules::specs::Base::sum))]
pub fn first_slot(h: Header, class: usize) -> usize
    requires { class ≤ 8 }
    ensures { (result ≡ sum (locals_of h.places) 0 class) × (result < 2048) }
{
    let mut first = 0;
    for k in 0..class {
        first += locals_of(h, k);
    }
    first
}

// The slot of a local in the lent words, by class, then index.
#[tactic(auto, unfolding(rules::specs::Words::slot))]
pub fn slot(h: Header, class: usize, index: usize) -> usize
    requires { (class ≤ 8) × (index < 2 ^ 32) }
    ensures { result ≡ slot h.places class index }
{
    first_slot(h, class) + index
}

// The number of locals of all classes.
#[tactic(auto, unfolding(rules::specs::Words::local_count))]
pub fn local_count(h: Header) -> usize
    ensures { (result ≡ local_count h.places) × (result < 2048) }
{
    first_slot(h, 8)
}

// The number of trees of so many frames, as a header may name them: 1,024 at most.
#[tactic(auto, unfolding(rules::specs::Words::tree_count))]
pub fn tree_count(frames: usize) -> usize
    requires { frames ≤ 2 ^ 21 }
    ensures { (result ≡ tree_count 11 frames) × ((0 < frames → 0 < result) × (result ≤ 1024)) }
{
    frames.div_ceil(2048)
}
