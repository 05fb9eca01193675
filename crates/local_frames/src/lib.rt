// Frames leave a local of the lent words, or come to it. Total: a local that is not there reads as absent, and a store to it does nothing.
#![tactic(auto)]

ghost use Rattle.std.specs.Prelude.{◌≡◌, true, ◌^◌, ◌<◌, ℕ, Option};
ghost use Rattle.rules.specs.Base.{out};
ghost use Rattle.rules.specs.Words.{local_at};
ghost use Rattle.rules.specs.Locals.{local_take, local_put, has_enough};
ghost use Rattle.rules.specs.declared.Held.TheVariants as Held;

use rules::{Held, Local};

// Subtract from a local: the answer is its row.
#[tactic(auto, unfolding(rules::specs::Locals::local_take))]
pub fn take(locals: &mut [u64], j: usize, name: Option<usize>, n: usize) -> Held
    ensures { out result locals.new ≡ local_take 11 locals.old j name n }
{
    let l = local_words::load(locals, j);
    if !l.present {
        return Held::Absent;
    }
    if local_words::in_tree(l.row, name) && n <= l.free {
        let left = Local {
            free: l.free - n,
            ..l
        };
        local_words::keep(locals, j, left);
        return Held::Row(l.row);
    }
    Held::Few {
        row: l.row,
        free: l.free,
    }
}

// Subtract from a local that has enough: the answer is its row.
#[tactic(auto, unfolding(rules::specs::Locals::local_take, rules::specs::Locals::has_enough))]
pub fn pay(locals: &mut [u64], j: usize, n: usize) -> usize
    ensures { (name : Option ℕ) → has_enough 11 (local_at locals.old j) name n ≡ true
        → out (Held.Row result) locals.new ≡ local_take 11 locals.old j name n }
{
    let l = local_words::load(locals, j);
    let rest = Local {
        free: l.free.saturating_sub(n),
        present: true,
        ..l
    };
    local_words::keep(locals, j, rest);
    l.row
}

// Add to a local that holds the tree.
#[tactic(auto, unfolding(rules::specs::Locals::local_put))]
pub fn put(locals: &mut [u64], j: usize, tree: usize, n: usize) -> bool
    requires { n < 2 ^ 32 }
    ensures { out result locals.new ≡ local_put 11 locals.old j tree n }
{
    let held = local_words::load(locals, j);
    if !held.present || held.row / 32 != tree {
        return false;
    }
    let more = Local {
        free: held.free + n,
        ..held
    };
    local_words::keep(locals, j, more);
    true
}
