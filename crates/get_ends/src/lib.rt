// How a route ends: a frame, empty, empty with a present own reservation, stuck; with the counts as given. And which ends are the last.
#![tactic(auto)]

ghost use Rattle.std.specs.Prelude.{◌≡◌, List, ℕ};
ghost use Rattle.rules_calls.specs.State.{st, ended, done, missed, missed_at, stuck};
ghost use Rattle.get_ends.specs.Ends.{ends};

use rules_calls::{Counts, Got, Routed};

// A route that found a frame, for a class.
pub fn done(frame: usize, class: usize, counts: Counts) -> Routed
    ensures { ((t l b : List ℕ) → ended result t l b ≡ done frame class (st t l b counts.looks counts.tries)) × (result.counts ≡ counts) }
{
    Routed {
        got: Got::Done { frame, class },
        counts,
    }
}

// A route that came back empty.
pub fn missed(counts: Counts) -> Routed
    ensures { ((t l b : List ℕ) → ended result t l b ≡ missed (st t l b counts.looks counts.tries)) × (result.counts ≡ counts) }
{
    Routed {
        got: Got::Missed,
        counts,
    }
}

// The same, with a present own reservation on a tree.
pub fn missed_at(tree: usize, counts: Counts) -> Routed
    ensures { ((t l b : List ℕ) → ended result t l b ≡ missed_at tree (st t l b counts.looks counts.tries)) × (result.counts ≡ counts) }
{
    Routed {
        got: Got::MissedAt(tree),
        counts,
    }
}

// A return of a reservation that was refused.
pub fn stuck(counts: Counts) -> Routed
    ensures { ((t l b : List ℕ) → ended result t l b ≡ stuck (st t l b counts.looks counts.tries)) × (result.counts ≡ counts) }
{
    Routed {
        got: Got::Stuck,
        counts,
    }
}

// Whether a route that came back so is the last: a frame, or stuck.
#[tactic(auto, unfolding(crate::specs::Ends::ends))]
pub fn ends(g: Got) -> bool
    ensures { result ≡ ends g }
{
    matches!(g, Got::Done { .. } | Got::Stuck)
}
