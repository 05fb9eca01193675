// The size of a block, and one number less another.
#![tactic(auto)]

ghost use Rattle.std.specs.Prelude.{◌≡◌, ◌^◌, ◌-◌, ◌≤◌};

// 2^order, the frames of a block.
pub fn size(order: usize) -> usize
    requires { order ≤ 18 }
    ensures { (result ≡ 2 ^ order) × (result ≤ 2 ^ 18) }
{
    1usize << order
}

// One number less another, but no less than 0: `saturating_sub`, by the name that docs/CLAIMS.md has for it; get_reserved and the statistics call it.
pub fn less(a: usize, b: usize) -> usize
    ensures { (result ≡ a - b) × (result ≤ a) }
{
    a.saturating_sub(b)
}
