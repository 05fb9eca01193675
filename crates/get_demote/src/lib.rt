// llfree.rs, demote_local: a reservation of another class moves to the given local, or is returned.
#![tactic(auto)]

ghost use Rattle.std.specs.Prelude.{◌≡◌, ◌+◌, ◌^◌, ◌<◌, ◌≤◌};
ghost use Rattle.rules.specs.Words.{config};
ghost use Rattle.rules_calls.specs.State.{st, ended};
ghost use Rattle.rules_calls.specs.FromLocals.{demote_to, demote_local};
ghost use Rattle.test_fits.specs.Room.{Room};

use rules::Local;
use rules_calls::{Counts, Routed};
use test_fits::Ask;

// The reservation l moves to the given local and the displaced one is unreserved, or with no local it is unreserved itself; then the lower is asked.
fn demote_to(
    a: Ask,
    table: &[u32; 64],
    trees: &mut [u32],
    locals: &mut [u64],
    bits: &mut [u64],
    name: Option<usize>,
    l: Local,
    counts: Counts,
) -> Routed
    requires { (l.free < 2 ^ 32) × Room 1 counts.tries }
    ensures { (ended result trees.new locals.new bits.new
        ≡ demote_to (config a.h table.now) a.q name l a.q.local (st trees.old locals.old bits.old counts.looks counts.tries))
        × ((result.counts.looks ≤ counts.looks) × (result.counts.tries ≤ counts.tries + 1)) }
{
    let returned = match a.q.local {
        Some(i) => {
            let old = local_words::swap(locals, word_header::slot(a.h, a.q.class, i), l);
            tree_returns::unreserve_local(a.h, table, trees, a.q.class, old)
        }
        None => tree_returns::unreserve(a.h, table, trees, l.row / 32, a.q.class, l.free),
    };
    if !returned {
        return get_ends::stuck(counts);
    }
    get_steps::ask_lower(a, table, trees, bits, name, l.row, a.q.class, counts)
}

// Demote: over the other classes of kind Demote. The first reservation with enough is reduced, and leaves its local.
pub fn demote_local(
    a: Ask,
    table: &[u32; 64],
    trees: &mut [u32],
    locals: &mut [u64],
    bits: &mut [u64],
    name: Option<usize>,
    counts: Counts,
) -> Routed
    requires { Room 1 counts.tries }
    ensures { (ended result trees.new locals.new bits.new
        ≡ demote_local (config a.h table.now) a.q name (st trees.old locals.old bits.old counts.looks counts.tries))
        × ((result.counts.looks ≤ counts.looks) × (result.counts.tries ≤ counts.tries + 1)) }
{
    let i = get_steps::index_of(a.q.local);
    let n = word_sizes::size(a.q.order);
    let Some(payer) = local_payers::demote_any(a.h, table, locals, a.q.class, i, name, n) else {
        return get_ends::missed(counts);
    };
    local_frames::pay(locals, payer.slot, n);
    let l = local_words::clear(locals, payer.slot);
    demote_to(a, table, trees, locals, bits, name, l, counts)
}
