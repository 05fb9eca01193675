// llfree.rs, get_local: from a local. Taking from a local and topping it up call on each other; syncs left falls from 1 to 0.
#![tactic(auto)]

ghost use Rattle.std.specs.Prelude.{◌≡◌, ◌+◌, ◌^◌, ◌<◌, ◌≤◌};
ghost use Rattle.rules.specs.Words.{config};
ghost use Rattle.rules_calls.specs.State.{st, ended, index_of};
ghost use Rattle.rules_calls.specs.FromLocals.{top_up, get_local, own_local};
ghost use Rattle.test_fits.specs.Room.{Room};

use rules::Held;
use rules_calls::{Counts, Routed};
use test_fits::Ask;

// Subtract, and ask the lower at the local's row; where it holds too few, or another tree than the named one, top it up.
#[cycle(get_local_top_up)]
pub fn get_local(
    a: Ask,
    table: &[u32; 64],
    trees: &mut [u32],
    locals: &mut [u64],
    bits: &mut [u64],
    name: Option<usize>,
    j: usize,
    syncs: usize,
    counts: Counts,
) -> Routed
    requires { (syncs < 2) × Room 1 counts.tries }
    ensures { (ended result trees.new locals.new bits.new
        ≡ get_local syncs (config a.h table.now) a.q name j (st trees.old locals.old bits.old counts.looks counts.tries))
        × ((result.counts.looks ≤ counts.looks) × (result.counts.tries ≤ counts.tries + 1)) }
{
    match local_frames::take(locals, j, name, word_sizes::size(a.q.order)) {
        Held::Row(row) => get_own_row::at_row(a, table, trees, locals, bits, name, j, row, counts),
        Held::Few { row, free } => top_up(
            a, table, trees, locals, bits, name, j, row, free, syncs, counts,
        ),
        Held::Absent => get_ends::missed(counts),
    }
}

// With a sync left: top the local up, then take again.
#[cycle(get_local_top_up)]
fn top_up(
    a: Ask,
    table: &[u32; 64],
    trees: &mut [u32],
    locals: &mut [u64],
    bits: &mut [u64],
    name: Option<usize>,
    j: usize,
    row: usize,
    free: usize,
    syncs: usize,
    counts: Counts,
) -> Routed
    requires { (syncs < 2) × Room 1 counts.tries }
    ensures { (ended result trees.new locals.new bits.new
        ≡ top_up syncs (config a.h table.now) a.q name j row free (st trees.old locals.old bits.old counts.looks counts.tries))
        × ((result.counts.looks ≤ counts.looks) × (result.counts.tries ≤ counts.tries + 1)) }
{
    let n = word_sizes::size(a.q.order);
    if 0 < syncs && get_own_topped::topped(a.h, table, trees, locals, j, row, free, n) {
        return get_local(a, table, trees, locals, bits, name, j, syncs - 1, counts);
    }
    get_ends::missed_at(row / 32, counts)
}

// The own local, if one is given, with one sync.
#[tactic(auto, unfolding(rules_calls::specs::FromLocals::own_local, rules_calls::specs::State::index_of))]
pub fn own_local(
    a: Ask,
    table: &[u32; 64],
    trees: &mut [u32],
    locals: &mut [u64],
    bits: &mut [u64],
    name: Option<usize>,
    local: Option<usize>,
    counts: Counts,
) -> Routed
    requires { (index_of local < 2 ^ 32) × Room 1 counts.tries }
    ensures { (ended result trees.new locals.new bits.new
        ≡ own_local (config a.h table.now) a.q name local (st trees.old locals.old bits.old counts.looks counts.tries))
        × ((result.counts.looks ≤ counts.looks) × (result.counts.tries ≤ counts.tries + 1)) }
{
    match local {
        Some(i) => {
            let j = word_header::slot(a.h, a.q.class, i);
            get_local(a, table, trees, locals, bits, name, j, 1, counts)
        }
        None => get_ends::missed(counts),
    }
}
