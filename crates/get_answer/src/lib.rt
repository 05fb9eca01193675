// How a get is answered.
#![tactic(auto)]

ghost use Rattle.std.specs.Prelude.{◌≡◌, List, ℕ, Err};
ghost use Rattle.rules_calls.specs.State.{ended};
ghost use Rattle.rules_calls.specs.Calls.{told_get, close};

use rules_calls::{Got, Granted, Refusal, Reply, Routed};

// A get refused before its routes: no frame, no class, no counts.
pub fn refused(x: Refusal) -> Reply
    ensures { result ≡ record { granted = Err x; looks = 0; tries = 0 } }
{
    Reply {
        granted: Err(x),
        looks: 0,
        tries: 0,
    }
}

// How a get's routes are answered: Done, Memory where every one came back empty, Stuck.
#[tactic(auto, unfolding(rules_calls::specs::Calls::close, rules_calls::specs::Calls::tell_get, rules_calls::specs::Calls::number_of))]
pub fn reply(r: Routed) -> Reply
    ensures { (t l b : List ℕ) → told_get result t l b ≡ close (ended r t l b) }
{
    let granted = match r.got {
        Got::Done { frame, class } => Ok(Granted { frame, class }),
        Got::Missed | Got::MissedAt(_) => Err(Refusal::Memory),
        Got::Stuck => Err(Refusal::Stuck),
    };
    Reply {
        granted,
        looks: r.counts.looks,
        tries: r.counts.tries,
    }
}
