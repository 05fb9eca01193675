// llfree.rs, get_local: the own local is topped up with the frames of its tree's entry.
#![tactic(auto)]

ghost use Rattle.std.specs.Prelude.{◌≡◌, List, ℕ, ◌<◌};
ghost use Rattle.rules.specs.Base.{out};
ghost use Rattle.rules.specs.Words.{config};
ghost use Rattle.rules_calls.specs.State.{st};
ghost use Rattle.get_own_topped.specs.Topped.{topped};

use rules::Header;

// Sync with shortfall n minus local free, no sync where that is negative: whether the local was topped up. If it will not take the frames, they go to the entry.
pub fn topped(
    h: Header,
    table: &[u32; 64],
    trees: &mut [u32],
    locals: &mut [u64],
    j: usize,
    row: usize,
    free: usize,
    n: usize,
) -> bool
    requires { h.default < 8 }
    ensures { (b : List ℕ) (looks tries : ℕ) → out result (st trees.new locals.new b looks tries)
        ≡ topped (config h table.now) n j row free (st trees.old locals.old b looks tries) }
{
    if n < free {
        return false;
    }
    let Some(x) = tree_words::sync(trees, row / 32, n - free) else {
        return false;
    };
    let taken = local_frames::put(locals, j, row / 32, x as usize);
    if !taken {
        tree_words::put(h, table, trees, row / 32, x as usize);
    }
    taken
}
