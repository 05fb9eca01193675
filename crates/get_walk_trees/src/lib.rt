// The trees of a walk: how far near is, where a reserving search begins, which tree each step visits.
#![tactic(auto, using(std::proofs::lemmas::Bool::Decides::nat_tests), unfolding(rules_calls::specs::Search::near, rules_calls::specs::Walking::walk_tree))]

ghost use Rattle.std.specs.Prelude.{◌≡◌, ◌%◌, ◌^◌, ◌<◌, ◌≤◌};
ghost use Rattle.rules_calls.specs.Search.{near, rounded_start};
ghost use Rattle.rules_calls.specs.Walking.{walk_tree};

// near = max(n / 16, 4).
pub fn near(n: usize) -> usize
    requires { n ≤ 1024 }
    ensures { (result ≡ near n) × (result ≤ 64) }
{
    (n / 16).max(4)
}

// The start rounded down to a multiple of the least power of two not below 2 × near.
pub fn rounded_start(n: usize, start: usize) -> usize
    requires { (n ≤ 1024) × (start < 2 ^ 44) }
    ensures { (result ≡ rounded_start n start) × (result ≤ start) }
{
    let least = 2 * near(n);
    for e in 0..8 {
        if least <= word_sizes::size(e) {
            return (start >> e) << e;
        }
    }
    0
}

// x modulo n, with no division where x is below 2n.
fn within(x: usize, n: usize) -> usize
    requires { 0 < n }
    ensures { (result ≡ x % n) × (result < n) }
{
    if x < n {
        return x;
    }
    if x - n < n {
        return x - n;
    }
    x % n
}

// The tree that step i of a walk visits: start + offset, modulo n; even i gives +i/2, odd i gives −(i+1)/2.
pub fn walk_tree(n: usize, start: usize, i: usize) -> usize
    requires { (0 < n) × ((n ≤ 1024) × ((start < 2 ^ 44) × (i ≤ 1024))) }
    ensures { (result ≡ walk_tree n start i) × (result < n) }
{
    if i % 2 == 0 {
        return within(start + i / 2, n);
    }
    within((start + n).saturating_sub((i + 1) / 2), n)
}
