// llfree.rs: the reserving search and the stealing search.
#![tactic(auto)]

ghost use Rattle.std.specs.Prelude.{◌≡◌, ◌+◌, ◌^◌, ◌<◌, ◌≤◌};
ghost use Rattle.rules.specs.Words.{config, tree_count};
ghost use Rattle.rules_calls.specs.State.{st, ended};
ghost use Rattle.rules_calls.specs.Walking.{search_best};
ghost use Rattle.rules_calls.specs.Search.{search_and_reserve, search_and_steal};
ghost use Rattle.test_fits.specs.Room.{Room};
ghost use Rattle.get_search.specs.Near.{near_first};

use get_walk::Path;
use rules_calls::{Counts, Routed, Walk};
use test_fits::Ask;

// A walk over all trees, the far or the stealing one: 0 to n, with a list of 8.
fn search_all(
    a: Ask,
    table: &[u32; 64],
    trees: &mut [u32],
    locals: &mut [u64],
    bits: &mut [u64],
    w: Walk,
    j: usize,
    start: usize,
    counts: Counts,
) -> Routed
    requires { (start < 2 ^ 44) × (Room 1024 counts.looks × Room 1032 counts.tries) }
    ensures { (ended result trees.new locals.new bits.new
        ≡ search_best (config a.h table.now) a.q w j 8 (tree_count 11 a.h.frames) start 0 (tree_count 11 a.h.frames)
        (st trees.old locals.old bits.old counts.looks counts.tries))
        × ((result.counts.looks ≤ counts.looks + 1024) × (result.counts.tries ≤ counts.tries + 1032)) }
{
    let n = word_header::tree_count(a.h.frames);
    let p = Path {
        m: 8,
        n,
        start,
        first: 0,
        last: n,
    };
    get_search_best::search_best(a, table, trees, locals, bits, w, j, p, counts)
}

// Below order 9 the near walk: 1 to near, with a list of 3.
#[tactic(auto, using(std::proofs::lemmas::Bool::Decides::nat_tests), unfolding(crate::specs::Near::near_first, rules::specs::Base::ifte))]
fn search_near(
    a: Ask,
    table: &[u32; 64],
    trees: &mut [u32],
    locals: &mut [u64],
    bits: &mut [u64],
    j: usize,
    start: usize,
    counts: Counts,
) -> Routed
    requires { (start < 2 ^ 44) × (Room 64 counts.looks × Room 67 counts.tries) }
    ensures { (ended result trees.new locals.new bits.new
        ≡ near_first (config a.h table.now) a.q j start (st trees.old locals.old bits.old counts.looks counts.tries))
        × ((result.counts.looks ≤ counts.looks + 64) × (result.counts.tries ≤ counts.tries + 67)) }
{
    if 9 <= a.q.order {
        return get_ends::missed(counts);
    }
    let n = word_header::tree_count(a.h.frames);
    let p = Path {
        m: 3,
        n,
        start,
        first: 1,
        last: get_walk_trees::near(n),
    };
    get_search_best::search_best(a, table, trees, locals, bits, Walk::Near, j, p, counts)
}

// The reserving search, for the local j: below order 9 the near walk; then the far walk.
pub fn search_and_reserve(
    a: Ask,
    table: &[u32; 64],
    trees: &mut [u32],
    locals: &mut [u64],
    bits: &mut [u64],
    j: usize,
    start: usize,
    counts: Counts,
) -> Routed
    requires { (start < 2 ^ 44) × (Room 1088 counts.looks × Room 1099 counts.tries) }
    ensures { (ended result trees.new locals.new bits.new
        ≡ search_and_reserve (config a.h table.now) a.q j start (st trees.old locals.old bits.old counts.looks counts.tries))
        × ((result.counts.looks ≤ counts.looks + 1088) × (result.counts.tries ≤ counts.tries + 1099)) }
{
    let n = word_header::tree_count(a.h.frames);
    let from = get_walk_trees::rounded_start(n, start);
    let r = search_near(a, table, trees, locals, bits, j, from, counts);
    if get_ends::ends(r.got) {
        return r;
    }
    search_all(a, table, trees, locals, bits, Walk::Far, j, from, r.counts)
}

// The stealing search: walk 0 to n, with a list of 8, plain ratings.
#[tactic(auto, unfolding(rules_calls::specs::Search::search_and_steal))]
pub fn search_and_steal(
    a: Ask,
    table: &[u32; 64],
    trees: &mut [u32],
    locals: &mut [u64],
    bits: &mut [u64],
    start: usize,
    counts: Counts,
) -> Routed
    requires { (start < 2 ^ 44) × (Room 1024 counts.looks × Room 1032 counts.tries) }
    ensures { (ended result trees.new locals.new bits.new
        ≡ search_and_steal (config a.h table.now) a.q start (st trees.old locals.old bits.old counts.looks counts.tries))
        × ((result.counts.looks ≤ counts.looks + 1024) × (result.counts.tries ≤ counts.tries + 1032)) }
{
    search_all(
        a,
        table,
        trees,
        locals,
        bits,
        Walk::Stealing,
        0,
        start,
        counts,
    )
}
