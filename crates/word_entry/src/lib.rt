// What the rules do to a single entry where no class requests it: put, unreserve, sync. By value: no buffer but the table.
#![tactic(auto)]

ghost use Rattle.std.specs.Prelude.{◌≡◌, ◌^◌, ◌<◌};
ghost use Rattle.rules.specs.Words.{config};
ghost use Rattle.rules.specs.Entries.{class_after, put_of, unreserve_of, sync_of};

use rules::{Header, Kind, Tree};

// The class after a put: at a full tree the default one, but where the policy's answer for the entry's class and the default is Invalid.
#[tactic(auto, unfolding(rules::specs::Entries::class_after, rules::specs::Entries::if_full))]
fn class_after(h: Header, class: usize, free: usize, kind: Kind) -> usize
    ensures { result ≡ class_after 11 h.default class free kind }
{
    if free == 2048 && !matches!(kind, Kind::Invalid) {
        h.default
    } else {
        class
    }
}

// Entry put: frames come back to an entry.
#[tactic(auto, unfolding(rules::specs::Entries::put_of))]
pub fn put(h: Header, table: &[u32; 64], t: Tree, n: usize) -> Tree
    requires { (h.default < 8) × ((t.class < 8) × ((t.free < 2 ^ 32) × (n < 2 ^ 32))) }
    ensures { result ≡ put_of (config h table.now) t n }
{
    let free = t.free + n;
    let kind = word_policy::ask(table, t.class, h.default, free);
    Tree {
        free,
        class: class_after(h, t.class, free, kind),
        ..t
    }
}

// Unreserve: a holder of this class returns its frames to a reserved entry. No: the entry is unreserved, or the pair is not good.
#[tactic(auto, unfolding(rules::specs::Entries::unreserve_of, rules::specs::Entries::unreserve_kind))]
pub fn unreserve(h: Header, table: &[u32; 64], t: Tree, class: usize, n: usize) -> Option<Tree>
    requires { (h.default < 8) × ((class < 8) × ((t.class < 8) × ((t.free < 2 ^ 32) × (n < 2 ^ 32)))) }
    ensures { result ≡ unreserve_of (config h table.now) t class n }
{
    if !t.reserved {
        return None;
    }
    let open = Tree {
        reserved: false,
        ..t
    };
    match word_policy::ask(table, class, t.class, n) {
        Kind::Invalid | Kind::Steal => None,
        Kind::Demote => Some(put(h, table, Tree { class, ..open }, n)),
        Kind::Match(_) => Some(put(h, table, open, n)),
    }
}

// Sync: takes all of a reserved entry whose free is above the shortfall.
#[tactic(auto, unfolding(rules::specs::Entries::sync_of))]
pub fn sync(t: Tree, shortfall: usize) -> Option<Tree>
    ensures { result ≡ sync_of t shortfall }
{
    if t.reserved && shortfall < t.free {
        Some(Tree { free: 0, ..t })
    } else {
        None
    }
}
