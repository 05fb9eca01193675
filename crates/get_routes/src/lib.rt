// llfree.rs, get: the routes of a get in their order.
#![tactic(auto)]

ghost use Rattle.std.specs.Prelude.{◌≡◌, List, ℕ, ◌+◌, ◌*◌, ◌/◌, ◌^◌, ◌<◌, ◌≤◌};
ghost use Rattle.rules.specs.Words.{config};
ghost use Rattle.rules_calls.specs.State.{st, ended};
ghost use Rattle.rules_calls.specs.Get.{start_tree, search_trees, routes};
ghost use Rattle.test_fits.specs.Room.{Room};
ghost use Rattle.get_routes.specs.Start.{start_after};
ghost use Rattle.get_routes.specs.Turn.{reserving};

use rules_calls::{Counts, Got, Routed};
use test_fits::Ask;

// n / m, rounded down, times i.
#[tactic(auto, using(crate::specs::Start::start_fits))]
fn portion(n: usize, m: usize, i: usize) -> usize
    requires { (0 < m) × ((n ≤ 1024) × (i < 2 ^ 32)) }
    ensures { (result ≡ n / m * i) × (result < 2 ^ 44) }
{
    if i == 0 {
        return 0;
    }
    n / m * i
}

// The start tree of the local i: (n / locals, rounded down) times the local, or 0 with no locals.
#[tactic(auto, unfolding(rules_calls::specs::Get::start_tree))]
fn start_tree(a: Ask, i: usize) -> usize
    requires { i < 2 ^ 32 }
    ensures { ((pairs : List ℕ) → result ≡ start_tree (config a.h pairs) a.q (Some i)) × (result < 2 ^ 44) }
{
    let m = word_header::locals_of(a.h, a.q.class);
    if m == 0 {
        return 0;
    }
    portion(word_header::tree_count(a.h.frames), m, i)
}

// The start of a search after the own local: the tree of a present reservation that failed, or else the start as given.
#[tactic(auto, unfolding(crate::specs::Start::start_after))]
fn start_after(got: Got, start: usize) -> usize
    ensures { result ≡ start_after start got }
{
    match got {
        Got::MissedAt(t) => t,
        Got::Done { .. } | Got::Missed | Got::Stuck => start,
    }
}

// Whether the own local is asked and the search reserves: a local is given, and its class has fewer locals than there are trees.
#[tactic(auto, using(crate::specs::Turn::reserving_asked))]
fn is_reserving(a: Ask) -> bool
    ensures { (pairs : List ℕ) → result ≡ reserving (config a.h pairs) a.q a.q.local }
{
    a.q.local.is_some()
        && word_header::locals_of(a.h, a.q.class) < word_header::tree_count(a.h.frames)
}

// Own local, then reserving search, where a present own reservation that failed gives its tree as the start; or the stealing search.
fn search_trees(
    a: Ask,
    table: &[u32; 64],
    trees: &mut [u32],
    locals: &mut [u64],
    bits: &mut [u64],
    counts: Counts,
) -> Routed
    requires { Room 1088 counts.looks × Room 1100 counts.tries }
    ensures { (ended result trees.new locals.new bits.new
        ≡ search_trees (config a.h table.now) a.q a.q.local (st trees.old locals.old bits.old counts.looks counts.tries))
        × ((result.counts.looks ≤ counts.looks + 1088) × (result.counts.tries ≤ counts.tries + 1100)) }
{
    let i = get_steps::index_of(a.q.local);
    let start = start_tree(a, i);
    if !is_reserving(a) {
        return get_search::search_and_steal(a, table, trees, locals, bits, start, counts);
    }
    let j = word_header::slot(a.h, a.q.class, i);
    let own = get_own::get_local(a, table, trees, locals, bits, None, j, 1, counts);
    if get_ends::ends(own.got) {
        return own;
    }
    let from = start_after(own.got, start);
    get_search::search_and_reserve(a, table, trees, locals, bits, j, from, own.counts)
}

// The routes of get: those of a named frame; or the search, then steal from locals, then demote. No counts yet.
pub fn routes(
    a: Ask,
    table: &[u32; 64],
    trees: &mut [u32],
    locals: &mut [u64],
    bits: &mut [u64],
    name: Option<usize>,
) -> Routed
    ensures { ended result trees.new locals.new bits.new
        ≡ routes (config a.h table.now) a.q name (st trees.old locals.old bits.old 0 0) }
{
    let none = Counts { looks: 0, tries: 0 };
    if let Some(f) = name {
        return get_named::get_at(a, table, trees, locals, bits, f, none);
    }
    let r = search_trees(a, table, trees, locals, bits, none);
    if get_ends::ends(r.got) {
        return r;
    }
    get_last::last_routes(a, table, trees, locals, bits, name, r.counts)
}
