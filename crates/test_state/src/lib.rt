// The standing rules as a test of the whole state: one pass over the bitmap, two over the entries, three over the locals.
#![tactic(auto, using(std::proofs::lemmas::Bool::Decides::nat_tests), unfolding(rules_calls::specs::Standing::standing, rules_calls::specs::Standing::past_held))]

ghost use Rattle.std.specs.Prelude.{◌≡◌};
ghost use Rattle.rules.specs.Words.{config};
ghost use Rattle.rules_calls.specs.Standing.{standing};

use rules::Header;

// The whole state is tested.
pub fn stands(h: Header, table: &[u32; 64], trees: &[u32], locals: &[u64], bits: &[u64]) -> bool
    ensures { result ≡ standing (config h table.now) trees.now locals.now bits.now }
{
    test_accept::accepts(h, table)
        && test_lengths::lengths_exact(h, trees, locals, bits)
        && test_entries::entries_stand(h, trees, bits)
        && test_locals::locals_stand(h, table, trees, locals, bits)
        && test_apart::apart(locals)
        && test_apart::reserved_count(trees) == test_apart::present_count(locals)
        && lower_words::past_held(bits, h.frames)
}
