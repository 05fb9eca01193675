// What several routes do: read the given index, ask the lower for frames that were taken.
#![tactic(auto)]

ghost use Rattle.std.specs.Prelude.{◌≡◌, List, ℕ, ◌+◌, ◌/◌, ◌≤◌};
ghost use Rattle.rules.specs.Words.{config};
ghost use Rattle.rules_calls.specs.State.{st, ended, index_of, ask_lower};
ghost use Rattle.test_fits.specs.Room.{Room};

use rules_calls::{Counts, Routed};
use test_fits::Ask;

// The given index, 0 if none.
pub fn index_of(local: Option<usize>) -> usize
    ensures { result ≡ index_of local }
{
    local.unwrap_or(0)
}

// The lower is asked once, at a row, for frames that were taken of the row's tree; refused, they go to its entry.
pub fn ask_lower(
    a: Ask,
    table: &[u32; 64],
    trees: &mut [u32],
    bits: &mut [u64],
    name: Option<usize>,
    row: usize,
    class: usize,
    counts: Counts,
) -> Routed
    requires { Room 1 counts.tries }
    ensures { ((l : List ℕ) → ended result trees.new l bits.new
        ≡ ask_lower (config a.h table.now) a.q name (row / 32) row class (st trees.old l bits.old counts.looks counts.tries))
        × ((result.counts.looks ≤ counts.looks) × (result.counts.tries ≤ counts.tries + 1)) }
{
    let tried = Counts {
        tries: counts.tries + 1,
        ..counts
    };
    match lower::lower_get(bits, row, a.q.order, name) {
        Some(f) => get_ends::done(f, class, tried),
        None => {
            tree_words::put(a.h, table, trees, row / 32, word_sizes::size(a.q.order));
            get_ends::missed(tried)
        }
    }
}
