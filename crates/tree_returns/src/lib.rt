// The return of a reservation, that of a tree and that of a local.
#![tactic(auto)]

ghost use Rattle.std.specs.Prelude.{◌≡◌, ◌^◌, ◌<◌};
ghost use Rattle.rules.specs.Base.{out};
ghost use Rattle.rules.specs.Words.{config};
ghost use Rattle.tree_returns.specs.Returned.{returned, returned_local};

use rules::{Header, Local};

// The reservation on tree t is returned, held by a class with so many free. False: the return is stuck.
pub fn unreserve(
    h: Header,
    table: &[u32; 64],
    trees: &mut [u32],
    t: usize,
    class: usize,
    free: usize,
) -> bool
    requires { (h.default < 8) × ((class < 8) × (free < 2 ^ 32)) }
    ensures { out result trees.new ≡ returned (config h table.now) t class free trees.old }
{
    tree_words::unreserve(h, table, trees, t, class, free).is_some()
}

// The reservation of a local of a class is returned, if there is one. False: the return is stuck.
pub fn unreserve_local(
    h: Header,
    table: &[u32; 64],
    trees: &mut [u32],
    class: usize,
    l: Local,
) -> bool
    requires { (h.default < 8) × ((class < 8) × (l.free < 2 ^ 32)) }
    ensures { out result trees.new ≡ returned_local (config h table.now) l class trees.old }
{
    if l.present {
        return unreserve(h, table, trees, l.row / 32, class, l.free);
    }
    true
}
