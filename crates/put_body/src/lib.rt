// What a put does once the state test and the argument tests have passed, and where its frames go.
#![tactic(auto)]

ghost use Rattle.std.specs.Prelude.{◌≡◌, List, ℕ, ◌^◌, ◌<◌};
ghost use Rattle.rules.specs.Words.{config};
ghost use Rattle.rules_calls.specs.State.{index_of};
ghost use Rattle.rules_calls.specs.Calls.{fresh, put_to, told, on_given};
ghost use Rattle.rules.specs.Lower.{lower_put};

use rules_calls::Refusal;
use test_fits::Ask;

// The frames of a put go to the given local if it holds their tree, else to the tree's entry.
pub fn put_to(
    a: Ask,
    table: &[u32; 64],
    trees: &mut [u32],
    locals: &mut [u64],
    frame: usize,
    local: Option<usize>,
)
    requires { index_of local < 2 ^ 32 }
    ensures { (b : List ℕ) → fresh trees.new locals.new b
        ≡ put_to (config a.h table.now) a.q frame local (fresh trees.old locals.old b) }
{
    let t = frame / 2048;
    let n = word_sizes::size(a.q.order);
    if let Some(i) = local {
        let j = word_header::slot(a.h, a.q.class, i);
        if local_frames::put(locals, j, t, n) {
            return;
        }
    }
    tree_words::put(a.h, table, trees, t, n);
}

// A put whose arguments fit: the lower first, then the local or the entry.
#[tactic(auto, unfolding(rules_calls::specs::Calls::on_given, rules_calls::specs::Calls::outcome_of, rules_calls::specs::Calls::number_of, rules_calls::specs::State::with_bits))]
pub fn put_body(
    a: Ask,
    table: &[u32; 64],
    trees: &mut [u32],
    locals: &mut [u64],
    bits: &mut [u64],
    frame: usize,
) -> Result<(), Refusal>
    ensures { told result trees.new locals.new bits.new
        ≡ on_given (lower_put 11 bits.old a.q.order frame) (fresh trees.old locals.old bits.old)
        (put_to (config a.h table.now) a.q frame a.q.local) }
{
    if !lower::lower_put(bits, a.q.order, frame) {
        return Err(Refusal::NotHeld);
    }
    put_to(a, table, trees, locals, frame, a.q.local);
    Ok(())
}
