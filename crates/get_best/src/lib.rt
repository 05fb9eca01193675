// The list of the best trees of a walk, by value: what it is ordered by, and a tree admitted to it.
#![tactic(auto, using(std::proofs::lemmas::Bool::Decides::nat_tests))]

ghost use Rattle.std.specs.Prelude.{◌≡◌, ◌+◌, ◌*◌, ◌^◌, ◌<◌, ◌≤◌, eqb};
ghost use Rattle.rules.specs.Base.{bit_of};
ghost use Rattle.rules_calls.specs.Walking.{admit};
ghost use Rattle.get_best.specs.List.{list_of};

// What the list is ordered by: the rating, then fully free above not.
pub fn key(r: usize, free: usize) -> usize
    requires { r ≤ 258 }
    ensures { (result ≡ 2 * r + bit_of (eqb free 2048)) × ((r ≤ result) × (result < 1024)) }
{
    2 * r + usize::from(free == 2048)
}

// A list of the best m, a rated tree offered: it goes before the first that is strictly worse, the last of a full list falls out.
pub fn admit(best: [u64; 8], m: usize, key: usize, t: usize) -> [u64; 8]
    requires { (m ≤ 8) × ((0 < key) × ((key < 2 ^ 32) × (t < 2 ^ 32))) }
    ensures { list_of m result ≡ admit m key t (list_of m best) }
{
    let mut s = best;
    let mut moving = key as u64 * 0x1_0000_0000 + t as u64;
    let mut inside = false;
    for k in 0..m {
        let y = s[k];
        inside |= y / 0x1_0000_0000 < moving / 0x1_0000_0000;
        if inside {
            s[k] = moving;
            moving = y;
        }
    }
    s
}
