// The first local of a class that has enough, from the given index round. Reads the lent words, stores none.
#![tactic(auto)]

ghost use Rattle.std.specs.Prelude.{◌≡◌, ◌+◌, ◌^◌, ◌<◌, eqb};
ghost use Rattle.rules.specs.Base.{pick};
ghost use Rattle.rules.specs.Locals.{has_enough};
ghost use Rattle.local_first.specs.Round.{payer_of};

use rules::{Header, Local, Payer};

// Whether a local has enough, and the named tree.
#[tactic(auto, unfolding(rules::specs::Locals::has_enough))]
fn has_enough(l: Local, name: Option<usize>, n: usize) -> bool
    ensures { result ≡ has_enough 11 l name n }
{
    l.present && local_words::in_tree(l.row, name) && n <= l.free
}

// The slot after j, round the slots from first up to end.
#[tactic(auto, unfolding(rules::specs::Base::pick))]
fn after(first: usize, end: usize, j: usize) -> usize
    requires { j < 2 ^ 32 }
    ensures { result ≡ pick (eqb (j + 1) end) first (j + 1) }
{
    if j + 1 == end { first } else { j + 1 }
}

// The first local of a class, from the given index cyclically, that has enough.
pub fn first_local(
    h: Header,
    locals: &[u64],
    class: usize,
    from: usize,
    name: Option<usize>,
    n: usize,
) -> Option<Payer>
    requires { class < 8 }
    ensures { result ≡ payer_of 11 h.places locals.now class from name n }
{
    let len = word_header::locals_of(h, class);
    if len == 0 {
        return None;
    }
    let first = word_header::first_slot(h, class);
    let end = first + len;
    let mut j = first + from % len;
    for d in 0..len {
        if has_enough(local_words::load(locals, j), name, n) {
            return Some(Payer { class, slot: j });
        }
        j = after(first, end, j);
    }
    None
}
