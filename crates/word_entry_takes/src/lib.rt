// What an entry yields to a requested class, by value: steal; reserve or steal.
#![tactic(auto)]

ghost use Rattle.std.specs.Prelude.{◌≡◌, ◌^◌, ◌<◌};
ghost use Rattle.rules.specs.Words.{config};
ghost use Rattle.rules.specs.declared.Header.{Header};
ghost use Rattle.rules.specs.Entries.{steal_of, reserve_of};
ghost use Rattle.word_entry_takes.specs.Yield.{may_yield};

use rules::{Kind, Taken, Tree};

// Whether an entry may yield n frames: it has no reservation, and enough free.
#[tactic(auto, unfolding(crate::specs::Yield::may_yield))]
fn may_yield(t: Tree, n: usize) -> bool
    ensures { result ≡ may_yield t n }
{
    !t.reserved && n <= t.free
}

// Steal: the entry that is left, or a refusal.
#[tactic(auto, unfolding(crate::specs::Yield::may_yield, rules::specs::Entries::steal_of, rules::specs::Entries::steal_kind))]
pub fn steal(table: &[u32; 64], t: Tree, class: usize, n: usize) -> Option<Tree>
    requires { (class < 8) × (t.class < 8) }
    ensures { (h : Header) → result ≡ steal_of (config h table.now) t class n }
{
    if !may_yield(t, n) {
        return None;
    }
    let left = Tree {
        free: t.free - n,
        ..t
    };
    match word_policy::ask(table, class, t.class, n) {
        Kind::Invalid => None,
        Kind::Steal => Some(left),
        Kind::Demote | Kind::Match(_) => Some(Tree { class, ..left }),
    }
}

// Reserve or steal: the entry that is left; with the whole of it, the frames that it had.
#[tactic(auto, unfolding(crate::specs::Yield::may_yield, rules::specs::Entries::reserve_of, rules::specs::Entries::reserve_kind))]
pub fn reserve_or_steal(table: &[u32; 64], t: Tree, class: usize, n: usize) -> Option<Taken>
    requires { (class < 8) × ((t.class < 8) × (t.free < 2 ^ 32)) }
    ensures { (h : Header) → result ≡ reserve_of (config h table.now) t class n }
{
    if !may_yield(t, n) {
        return None;
    }
    match word_policy::ask(table, class, t.class, n) {
        Kind::Invalid => None,
        Kind::Steal => Some(Taken::Part(Tree {
            free: t.free - n,
            ..t
        })),
        Kind::Demote | Kind::Match(_) => Some(Taken::Whole(
            Tree {
                free: 0,
                reserved: true,
                class,
            },
            t.free as u32,
        )),
    }
}
