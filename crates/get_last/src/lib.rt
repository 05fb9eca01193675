// llfree.rs, steal_local: another local pays. And the last routes of a get: steal from locals, then demote.
#![tactic(auto)]

ghost use Rattle.std.specs.Prelude.{◌≡◌, ◌+◌, ◌≤◌};
ghost use Rattle.rules.specs.Words.{config};
ghost use Rattle.rules_calls.specs.State.{st, ended};
ghost use Rattle.rules_calls.specs.FromLocals.{steal_local};
ghost use Rattle.rules_calls.specs.Get.{last_routes};
ghost use Rattle.test_fits.specs.Room.{Room};

use rules_calls::{Counts, Routed};
use test_fits::Ask;

// Steal from locals: over classes c, c+1, .. modulo 8 whose kind is Steal or Match. The first with enough pays, and its class is answered.
fn steal_local(
    a: Ask,
    table: &[u32; 64],
    trees: &mut [u32],
    locals: &mut [u64],
    bits: &mut [u64],
    name: Option<usize>,
    counts: Counts,
) -> Routed
    requires { Room 1 counts.tries }
    ensures { (ended result trees.new locals.new bits.new
        ≡ steal_local (config a.h table.now) a.q name (st trees.old locals.old bits.old counts.looks counts.tries))
        × ((result.counts.looks ≤ counts.looks) × (result.counts.tries ≤ counts.tries + 1)) }
{
    let i = get_steps::index_of(a.q.local);
    let n = word_sizes::size(a.q.order);
    let Some(payer) = local_payers::steal_any(a.h, table, locals, a.q.class, i, name, n) else {
        return get_ends::missed(counts);
    };
    let row = local_frames::pay(locals, payer.slot, n);
    get_steps::ask_lower(a, table, trees, bits, name, row, payer.class, counts)
}

// Steal from locals, then demote.
pub fn last_routes(
    a: Ask,
    table: &[u32; 64],
    trees: &mut [u32],
    locals: &mut [u64],
    bits: &mut [u64],
    name: Option<usize>,
    counts: Counts,
) -> Routed
    requires { Room 2 counts.tries }
    ensures { (ended result trees.new locals.new bits.new
        ≡ last_routes (config a.h table.now) a.q name (st trees.old locals.old bits.old counts.looks counts.tries))
        × ((result.counts.looks ≤ counts.looks) × (result.counts.tries ≤ counts.tries + 2)) }
{
    let r = steal_local(a, table, trees, locals, bits, name, counts);
    if get_ends::ends(r.got) {
        return r;
    }
    get_demote::demote_local(a, table, trees, locals, bits, name, r.counts)
}
