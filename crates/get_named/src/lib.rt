// llfree.rs, get_at: the routes of a get that names a frame.
#![tactic(auto)]

ghost use Rattle.std.specs.Prelude.{◌≡◌, ◌+◌, ◌≤◌};
ghost use Rattle.rules.specs.Words.{config};
ghost use Rattle.rules_calls.specs.State.{st, ended};
ghost use Rattle.rules_calls.specs.Get.{get_at};
ghost use Rattle.test_fits.specs.Room.{Room};

use rules_calls::{Counts, Routed};
use test_fits::Ask;

// Named frame: own local if given; steal globally from its tree; steal from locals; demote.
pub fn get_at(
    a: Ask,
    table: &[u32; 64],
    trees: &mut [u32],
    locals: &mut [u64],
    bits: &mut [u64],
    f: usize,
    counts: Counts,
) -> Routed
    requires { Room 4 counts.tries }
    ensures { (ended result trees.new locals.new bits.new
        ≡ get_at (config a.h table.now) a.q f (st trees.old locals.old bits.old counts.looks counts.tries))
        × ((result.counts.looks ≤ counts.looks) × (result.counts.tries ≤ counts.tries + 4)) }
{
    let name = Some(f);
    let own = get_own::own_local(a, table, trees, locals, bits, name, a.q.local, counts);
    if get_ends::ends(own.got) {
        return own;
    }
    let r = get_tree::steal_global(a, table, trees, locals, bits, name, f / 2048, own.counts);
    if get_ends::ends(r.got) {
        return r;
    }
    get_last::last_routes(a, table, trees, locals, bits, name, r.counts)
}
