// The standing rules of the locals, by class, then index.
#![tactic(auto, using(std::proofs::lemmas::Bool::Decides::nat_tests, law_rules::specs::All::all_loop), unfolding(rules_calls::specs::Standing::local_stands))]

ghost use Rattle.std.specs.Prelude.{◌≡◌, ◌^◌, ◌<◌};
ghost use Rattle.rules.specs.Base.{all_below, sum};
ghost use Rattle.rules.specs.Words.{config, locals_of};
ghost use Rattle.rules_calls.specs.Standing.{local_stands, class_stands};
ghost use Rattle.test_lengths.specs.Exact.{Exact};

use rules::Header;

// A present local stands as a holder, an absent one is the word 0.
fn local_stands(
    h: Header,
    table: &[u32; 64],
    trees: &[u32],
    locals: &[u64],
    bits: &[u64],
    class: usize,
    j: usize,
) -> bool
    requires { Exact (config h table.now) trees.now bits.now × (class < 8) }
    ensures { result ≡ local_stands (config h table.now) trees.now locals.now bits.now class j }
{
    let l = local_words::load(locals, j);
    if l.present {
        test_holder::holder_stands(h, table, trees, bits, class, l)
    } else {
        local_words::word(locals, j) == 0
    }
}

// The locals of a class, from its first slot on.
fn class_stands(
    h: Header,
    table: &[u32; 64],
    trees: &[u32],
    locals: &[u64],
    bits: &[u64],
    class: usize,
    first: usize,
    len: usize,
) -> bool
    requires exact { Exact (config h table.now) trees.now bits.now × ((class < 8) × ((first < 2 ^ 32) × (first ≡ sum (locals_of h.places) 0 class))) }
    requires len_value { (len ≡ locals_of h.places class) × (len < 256) }
    ensures { result ≡ class_stands (config h table.now) trees.now locals.now bits.now class }
{
    for index in 0..len {
        if !local_stands(h, table, trees, locals, bits, class, first + index) {
            return false;
        }
    }
    true
}

// The locals of all classes.
pub fn locals_stand(
    h: Header,
    table: &[u32; 64],
    trees: &[u32],
    locals: &[u64],
    bits: &[u64],
) -> bool
    requires { Exact (config h table.now) trees.now bits.now }
    ensures { result ≡ all_below 8 (class_stands (config h table.now) trees.now locals.now bits.now) }
{
    let mut first: usize = 0;
    for class in 0..8 {
        let len = word_header::locals_in(&h.places, class);
        if !class_stands(h, table, trees, locals, bits, class, first, len) {
            return false;
        }
        first += len;
    }
    true
}
