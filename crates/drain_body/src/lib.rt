// What a drain does once the state test has passed: by class, then index, each reservation is unreserved.
#![tactic(auto)]

ghost use Rattle.std.specs.Prelude.{◌≡◌, List, ℕ, ◌<◌};
ghost use Rattle.rules.specs.Base.{out};
ghost use Rattle.rules.specs.Words.{config, locals_of};
ghost use Rattle.rules_calls.specs.Calls.{fresh, told, drain_locals, drain_classes, close_drain};
ghost use Rattle.drain_body.specs.Loops.{drain_one};

use rules::Header;
use rules_calls::Refusal;

// The local in a slot of the lent words becomes absent, and its reservation, if it had one, is returned. False: the return is stuck.
fn drain_local(
    h: Header,
    table: &[u32; 64],
    trees: &mut [u32],
    locals: &mut [u64],
    class: usize,
    j: usize,
) -> bool
    requires { (h.default < 8) × (class < 8) }
    ensures { (b : List ℕ) → out result (fresh trees.new locals.new b)
        ≡ drain_one (config h table.now) class j (fresh trees.old locals.old b) }
{
    let l = local_words::clear(locals, j);
    tree_returns::unreserve_local(h, table, trees, class, l)
}

// The locals of a class, by index.
fn drain_class(
    h: Header,
    table: &[u32; 64],
    trees: &mut [u32],
    locals: &mut [u64],
    class: usize,
) -> bool
    requires { (h.default < 8) × (class < 8) }
    ensures { (b : List ℕ) → out result (fresh trees.new locals.new b)
        ≡ drain_locals (locals_of h.places class) (config h table.now) class 0 (fresh trees.old locals.old b) }
{
    let n = word_header::locals_of(h, class);
    let first = word_header::first_slot(h, class);
    for i in 0..n {
        if !drain_local(h, table, trees, locals, class, first + i) {
            return false;
        }
    }
    true
}

// A drain: the classes in turn. Done, or Stuck as the step before left the words; whatever the bitmap is, it stays.
pub fn drain_body(
    h: Header,
    table: &[u32; 64],
    trees: &mut [u32],
    locals: &mut [u64],
) -> Result<(), Refusal>
    requires { h.default < 8 }
    ensures { (b : List ℕ) → told result trees.new locals.new b
        ≡ close_drain (drain_classes 8 (config h table.now) 0 (fresh trees.old locals.old b)) }
{
    for k in 0..8 {
        if !drain_class(h, table, trees, locals, k) {
            return Err(Refusal::Stuck);
        }
    }
    Ok(())
}
