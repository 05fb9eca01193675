// What a start writes once its test has passed: every word of the lent buffers.
#![tactic(auto)]

ghost use Rattle.std.specs.Prelude.{◌≡◌, List, ℕ, ◌*◌, ◌^◌, ◌≤◌, length};
ghost use Rattle.rules.specs.Words.{config, tree_count, local_count};
ghost use Rattle.rules_calls.specs.Calls.{fresh, free_at_start, fresh_state};

use rules::Header;

// How many frames are free: all free, or all held.
#[tactic(auto, unfolding(rules_calls::specs::Calls::free_at_start))]
fn free_at_start(free: bool, frames: usize) -> usize
    ensures { result ≡ free_at_start free frames }
{
    if free { frames } else { 0 }
}

// A start in buffers of the exact lengths. The policy table, whatever it is, has no part in what is written.
pub fn start_body(h: Header, trees: &mut [u32], locals: &mut [u64], bits: &mut [u64], free: bool)
    requires frames_bound { h.frames ≤ 2 ^ 21 }
    requires trees_len { length trees.old ≡ tree_count 11 h.frames }
    requires locals_len { length locals.old ≡ local_count h.places }
    requires bits_len { length bits.old ≡ 32 * tree_count 11 h.frames }
    ensures { (pairs : List ℕ) → fresh trees.new locals.new bits.new
        ≡ fresh_state (config h pairs) (free_at_start free h.frames) }
{
    let f = free_at_start(free, h.frames);
    start_fills::fill_trees(trees, f, h.default);
    start_fills::fill_locals(locals);
    start_fills::fill_bits(bits, f);
}
