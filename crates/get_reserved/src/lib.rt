// A tree that was reserved: the lower is asked, and the reservation stored in a local, or undone.
#![tactic(auto)]

ghost use Rattle.std.specs.Prelude.{◌≡◌, List, ℕ, ◌+◌, ◌*◌, ◌^◌, ◌<◌, ◌≤◌};
ghost use Rattle.rules.specs.Base.{ifte};
ghost use Rattle.rules.specs.Words.{config};
ghost use Rattle.rules.specs.Locals.{reservation};
ghost use Rattle.rules_calls.specs.State.{st, ended, stuck};
ghost use Rattle.rules_calls.specs.Walking.{reserved_tree};
ghost use Rattle.test_fits.specs.Room.{Room};

use rules::Local;
use rules_calls::{Counts, Routed};
use test_fits::Ask;

// A reservation of tree t, at its first row.
fn reservation(t: usize, free: usize) -> Local
    requires { t < 2 ^ 53 }
    ensures { result ≡ reservation (t * 32) free }
{
    Local {
        row: t * 32,
        free,
        present: true,
    }
}

// A route that ends so if a reservation was returned, and else is stuck.
#[tactic(auto, unfolding(rules::specs::Base::ifte))]
fn or_stuck(returned: bool, r: Routed) -> Routed
    ensures { ((t l b : List ℕ) → ended result t l b ≡ ifte returned (λ _. ended r t l b) (λ _. stuck (st t l b r.counts.looks r.counts.tries)))
        × (result.counts ≡ r.counts) }
{
    if returned {
        r
    } else {
        get_ends::stuck(r.counts)
    }
}

// Tree t was reserved with so many free: the lower is asked, the reservation stored in the local j, the one it replaces returned; refused, it is undone.
pub fn reserved(
    a: Ask,
    table: &[u32; 64],
    trees: &mut [u32],
    locals: &mut [u64],
    bits: &mut [u64],
    j: usize,
    t: usize,
    old: u32,
    counts: Counts,
) -> Routed
    requires { (t < 2 ^ 53) × Room 1 counts.tries }
    ensures { (ended result trees.new locals.new bits.new
        ≡ reserved_tree (config a.h table.now) a.q j t old (st trees.old locals.old bits.old counts.looks counts.tries))
        × ((result.counts.looks ≤ counts.looks) × (result.counts.tries ≤ counts.tries + 1)) }
{
    let tried = Counts {
        tries: counts.tries + 1,
        ..counts
    };
    match lower::lower_get(bits, t * 32, a.q.order, None) {
        Some(f) => {
            let free = word_sizes::less(old as usize, word_sizes::size(a.q.order));
            let l = local_words::swap(locals, j, reservation(t, free));
            let back = tree_returns::unreserve_local(a.h, table, trees, a.q.class, l);
            or_stuck(back, get_ends::done(f, a.q.class, tried))
        }
        None => {
            let back = tree_returns::unreserve(a.h, table, trees, t, a.q.class, old as usize);
            or_stuck(back, get_ends::missed(tried))
        }
    }
}
