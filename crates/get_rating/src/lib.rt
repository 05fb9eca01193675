// The rating of a tree in each of the three walks, by the policy's answer.
#![tactic(auto, using(std::proofs::lemmas::Bool::Decides::nat_tests), unfolding(rules_calls::specs::Walking::rated_in, rules_calls::specs::Walking::rate, rules::specs::Policy::policy, crate::specs::Rating::rating_of))]

ghost use Rattle.std.specs.Prelude.{◌≡◌, ◌<◌, ◌≤◌, eqb};
ghost use Rattle.rules.specs.Words.{config};
ghost use Rattle.rules.specs.declared.Header.{Header};
ghost use Rattle.rules.specs.Policy.{policy_of};
ghost use Rattle.rules_calls.specs.Walking.{rated_in, rate};
ghost use Rattle.get_rating.specs.Rating.{rating_of};

use rules::{Kind, Request, Tree};
use rules_calls::Walk;

// The rating of a policy's answer in a walk: Invalid 0, Steal 1, Demote 2, Match r is 3 + r.
fn rated_in(walk: Walk, full: bool, kind: Kind) -> usize
    requires { rating_of kind ≤ 255 }
    ensures { (result ≡ rated_in walk full kind) × (result ≤ 258) }
{
    match walk {
        Walk::Near => match kind {
            Kind::Demote if full => 2,
            Kind::Invalid | Kind::Steal | Kind::Demote => 0,
            Kind::Match(r) => 3 + r,
        },
        Walk::Far => match kind {
            Kind::Invalid => 0,
            Kind::Steal => 1,
            Kind::Demote if !full => 2,
            Kind::Demote | Kind::Match(_) => 258,
        },
        Walk::Stealing => match kind {
            Kind::Invalid => 0,
            Kind::Steal => 1,
            Kind::Demote => 2,
            Kind::Match(r) => 3 + r,
        },
    }
}

// The rating of a pair's word in a walk, for a tree with so many free.
fn rated_of(w: u32, walk: Walk, free: usize) -> usize
    ensures { (result ≡ rated_in walk (eqb free 2048) (policy_of w free)) × (result ≤ 258) }
{
    let kind = word_policy::policy_of(w, free);
    rated_in(walk, free == 2048, kind)
}

// The rating of a tree in a walk: 0 where it is reserved or has too little free.
pub fn rate(table: &[u32; 64], q: Request, walk: Walk, e: Tree) -> usize
    requires { (q.order ≤ 11) × ((q.class < 8) × (e.class < 8)) }
    ensures { ((h : Header) → result ≡ rate (config h table.now) q walk e) × (result ≤ 258) }
{
    if e.reserved || e.free < word_sizes::size(q.order) {
        return 0;
    }
    rated_of(word_policy::pair_at(table, q.class, e.class), walk, e.free)
}
