// llfree.rs, get_local: the lower is asked at the row of the own local, which has paid.
#![tactic(auto)]

ghost use Rattle.std.specs.Prelude.{◌≡◌, ◌+◌, ◌≤◌};
ghost use Rattle.rules.specs.Words.{config};
ghost use Rattle.rules_calls.specs.State.{st, ended};
ghost use Rattle.test_fits.specs.Room.{Room};
ghost use Rattle.get_own_row.specs.Own.{at_row};

use rules_calls::{Counts, Routed};
use test_fits::Ask;

// A local has paid at its row: the lower is asked there, and the found frame's row stored; if it refuses, the frames go to the tree's entry.
pub fn at_row(
    a: Ask,
    table: &[u32; 64],
    trees: &mut [u32],
    locals: &mut [u64],
    bits: &mut [u64],
    name: Option<usize>,
    j: usize,
    row: usize,
    counts: Counts,
) -> Routed
    requires { Room 1 counts.tries }
    ensures { (ended result trees.new locals.new bits.new
        ≡ at_row (config a.h table.now) a.q name j row (st trees.old locals.old bits.old counts.looks counts.tries))
        × ((result.counts.looks ≤ counts.looks) × (result.counts.tries ≤ counts.tries + 1)) }
{
    let tried = Counts {
        tries: counts.tries + 1,
        ..counts
    };
    match lower::lower_get(bits, row, a.q.order, name) {
        Some(f) => {
            local_words::set_start(locals, j, f / 64);
            get_ends::done(f, a.q.class, tried)
        }
        None => {
            tree_words::put(a.h, table, trees, row / 32, word_sizes::size(a.q.order));
            get_ends::missed_at(row / 32, tried)
        }
    }
}
