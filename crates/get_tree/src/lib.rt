// llfree.rs: frames of one tree: steal them from its entry, or reserve it; then ask the lower.
#![tactic(auto)]

ghost use Rattle.std.specs.Prelude.{◌≡◌, ℕ, None, ◌+◌, ◌^◌, ◌<◌, ◌≤◌};
ghost use Rattle.rules.specs.Base.{ifte};
ghost use Rattle.rules.specs.Words.{Config, config};
ghost use Rattle.rules.specs.declared.Request.{Request};
ghost use Rattle.rules_calls.specs.State.{State, st, ended};
ghost use Rattle.rules_calls.specs.Walking.{steal_global, reserve_or_steal, access};
ghost use Rattle.test_fits.specs.Room.{Room};

use rules::Taken;
use rules_calls::{Counts, Routed, Walk};
use test_fits::Ask;

// Steal globally, from the entry of tree t.
#[tactic(auto, unfolding(rules_calls::specs::Walking::steal_global, rules_calls::specs::State::on_took, rules_calls::specs::State::with_trees))]
pub fn steal_global(
    a: Ask,
    table: &[u32; 64],
    trees: &mut [u32],
    locals: &mut [u64],
    bits: &mut [u64],
    name: Option<usize>,
    t: usize,
    counts: Counts,
) -> Routed
    requires { (t < 2 ^ 53) × Room 1 counts.tries }
    ensures { (ended result trees.new locals.new bits.new
        ≡ steal_global (config a.h table.now) a.q name t (st trees.old locals.old bits.old counts.looks counts.tries))
        × ((result.counts.looks ≤ counts.looks) × (result.counts.tries ≤ counts.tries + 1)) }
{
    match tree_words::steal(table, trees, t, a.q.class, word_sizes::size(a.q.order)) {
        None => get_ends::missed(counts),
        Some(e) => get_steps::ask_lower(a, table, trees, bits, name, t * 32, e.class, counts),
    }
}

// Reserve or steal tree t for the local j.
#[tactic(auto, unfolding(rules_calls::specs::Walking::reserve_or_steal, rules_calls::specs::State::on_taken, rules_calls::specs::State::with_trees))]
fn reserve_or_steal(
    a: Ask,
    table: &[u32; 64],
    trees: &mut [u32],
    locals: &mut [u64],
    bits: &mut [u64],
    j: usize,
    t: usize,
    counts: Counts,
) -> Routed
    requires { (t < 2 ^ 53) × Room 1 counts.tries }
    ensures { (ended result trees.new locals.new bits.new
        ≡ reserve_or_steal (config a.h table.now) a.q j t (st trees.old locals.old bits.old counts.looks counts.tries))
        × ((result.counts.looks ≤ counts.looks) × (result.counts.tries ≤ counts.tries + 1)) }
{
    match tree_words::reserve_or_steal(table, trees, t, a.q.class, word_sizes::size(a.q.order)) {
        None => get_ends::missed(counts),
        Some(Taken::Part(e)) => {
            get_steps::ask_lower(a, table, trees, bits, None, t * 32, e.class, counts)
        }
        Some(Taken::Whole(_, old)) => {
            get_reserved::reserved(a, table, trees, locals, bits, j, t, old, counts)
        }
    }
}

// Whether a walk steals what it finds, and reserves nothing.
#[tactic(auto, unfolding(rules_calls::specs::Walking::access, rules::specs::Base::ifte))]
fn steals(walk: Walk) -> bool
    ensures { (c : Config) (q : Request) (j t : ℕ) (s : State) → access c q walk j t s
        ≡ ifte result (λ _. steal_global c q None t s) (λ _. reserve_or_steal c q j t s) }
{
    matches!(walk, Walk::Stealing)
}

// A tree that a walk has found is tried.
#[tactic(auto, unfolding(rules::specs::Base::ifte))]
pub fn access(
    a: Ask,
    table: &[u32; 64],
    trees: &mut [u32],
    locals: &mut [u64],
    bits: &mut [u64],
    walk: Walk,
    j: usize,
    t: usize,
    counts: Counts,
) -> Routed
    requires { (t < 2 ^ 53) × Room 1 counts.tries }
    ensures { (ended result trees.new locals.new bits.new
        ≡ access (config a.h table.now) a.q walk j t (st trees.old locals.old bits.old counts.looks counts.tries))
        × ((result.counts.looks ≤ counts.looks) × (result.counts.tries ≤ counts.tries + 1)) }
{
    if steals(walk) {
        return steal_global(a, table, trees, locals, bits, None, t, counts);
    }
    reserve_or_steal(a, table, trees, locals, bits, j, t, counts)
}
