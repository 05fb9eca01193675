// llfree.rs and trees.rs, search_best: the list of the best is tried.
#![tactic(auto)]

ghost use Rattle.std.specs.Prelude.{◌≡◌, ◌+◌, ◌≤◌};
ghost use Rattle.rules.specs.Words.{config};
ghost use Rattle.rules_calls.specs.State.{st, ended};
ghost use Rattle.rules_calls.specs.Walking.{try_list};
ghost use Rattle.test_fits.specs.Room.{Room};
ghost use Rattle.get_best.specs.List.{list_of};

use rules_calls::{Counts, Routed, Walk};
use test_fits::Ask;

// The list is tried best first.
pub fn try_list(
    a: Ask,
    table: &[u32; 64],
    trees: &mut [u32],
    locals: &mut [u64],
    bits: &mut [u64],
    w: Walk,
    j: usize,
    m: usize,
    best: [u64; 8],
    counts: Counts,
) -> Routed
    requires { (m ≤ 8) × Room m counts.tries }
    ensures { (ended result trees.new locals.new bits.new
        ≡ try_list (config a.h table.now) a.q w j (list_of m best) (st trees.old locals.old bits.old counts.looks counts.tries))
        × ((result.counts.looks ≤ counts.looks) × (result.counts.tries ≤ counts.tries + m)) }
{
    let mut so_far = counts;
    for &x in &best[..m] {
        if x == 0 {
            return get_ends::missed(so_far);
        }
        let t = (x % 0x1_0000_0000) as usize;
        let r = get_tree::access(a, table, trees, locals, bits, w, j, t, so_far);
        if get_ends::ends(r.got) {
            return r;
        }
        so_far = r.counts;
    }
    get_ends::missed(so_far)
}
