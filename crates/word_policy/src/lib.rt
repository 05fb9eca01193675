// The policy lookup: the word of a pair of classes, its answer, and which answers let a local pay or its reservation move. By value: no buffer but the table.
#![tactic(auto)]

ghost use Rattle.std.specs.Prelude.{◌≡◌, ◌<◌};
ghost use Rattle.rules.specs.Words.{config};
ghost use Rattle.rules.specs.declared.Header.{Header};
ghost use Rattle.rules.specs.Policy.{pair_of, policy_of, policy, kind_at, good};
ghost use Rattle.rules.specs.Locals.{may_pay, may_move};

use rules::Kind;

// The answer of a pair's word, asked with a number of free frames.
#[tactic(auto, unfolding(rules::specs::Policy::policy_of, rules::specs::Policy::kind_of, rules::specs::Policy::cut_of, rules::specs::Policy::low_of, rules::specs::Policy::high_of))]
pub fn policy_of(w: u32, free: usize) -> Kind
    ensures { result ≡ policy_of w free }
{
    match w % 4 {
        0 => Kind::Invalid,
        1 => Kind::Steal,
        2 => Kind::Demote,
        _ if (w / 4 % 0x4000) as usize <= free => Kind::Match((w / 0x100_0000) as usize),
        _ => Kind::Match((w / 0x1_0000 % 0x100) as usize),
    }
}

// The word of a pair of classes.
#[tactic(auto, unfolding(rules::specs::Policy::pair_of))]
pub fn pair_at(table: &[u32; 64], requested: usize, target: usize) -> u32
    requires { (requested < 8) × (target < 8) }
    ensures { (h : Header) → result ≡ pair_of (config h table.now) requested target }
{
    table[requested * 8 + target]
}

// The policy: a requested and a target class, asked with a number of free frames.
#[tactic(auto, unfolding(rules::specs::Policy::policy))]
pub fn ask(table: &[u32; 64], requested: usize, target: usize, free: usize) -> Kind
    requires { (requested < 8) × (target < 8) }
    ensures { (h : Header) → result ≡ policy (config h table.now) requested target free }
{
    policy_of(pair_at(table, requested, target), free)
}

// The kind of a pair of classes: Invalid 0, Steal 1, Demote 2 or Match 3.
#[tactic(auto, unfolding(rules::specs::Policy::kind_at, rules::specs::Policy::kind_of))]
pub fn kind_at(table: &[u32; 64], requested: usize, target: usize) -> u32
    requires { (requested < 8) × (target < 8) }
    ensures { (h : Header) → result ≡ kind_at (config h table.now) requested target }
{
    pair_at(table, requested, target) % 4
}

// Whether a pair of classes is good: Demote or Match.
#[tactic(auto, using(std::proofs::lemmas::Bool::Decides::nat_tests), unfolding(rules::specs::Policy::good))]
pub fn is_good(table: &[u32; 64], requested: usize, target: usize) -> bool
    requires { (requested < 8) × (target < 8) }
    ensures { (h : Header) → result ≡ good (config h table.now) requested target }
{
    2 <= kind_at(table, requested, target)
}

// Whether a kind pays: Steal or Match.
#[tactic(auto, unfolding(rules::specs::Locals::may_pay))]
pub fn may_pay(kind: Kind) -> bool
    ensures { result ≡ may_pay kind }
{
    matches!(kind, Kind::Steal | Kind::Match(_))
}

// Whether a kind lets a reservation move: Demote.
#[tactic(auto, unfolding(rules::specs::Locals::may_move))]
pub fn may_move(kind: Kind) -> bool
    ensures { result ≡ may_move kind }
{
    matches!(kind, Kind::Demote)
}
