// The argument tests of a get and a put: the refusals 2 to 6, and the frame that a get is tested with.
#![tactic(auto, using(std::proofs::lemmas::Bool::Decides::nat_tests), unfolding(rules_calls::specs::Calls::outcome_of, rules_calls::specs::Calls::number_of, rules_calls::specs::Calls::refuse_local, rules_calls::specs::Calls::refuse_class, rules_calls::specs::Calls::refusal, rules::specs::Base::ifte, rules_calls::specs::Calls::frame_of))]

ghost use Rattle.std.specs.Prelude.{◌≡◌, List, ℕ, ◌<◌};
ghost use Rattle.rules.specs.Words.{config};
ghost use Rattle.rules_calls.specs.Calls.{outcome_of, refuse_local, refuse_class, refusal, frame_of};

use rules::{Header, Request};
use rules_calls::Refusal;

// A local given has to be below its class's number.
fn check_local(h: Header, class: usize, local: Option<usize>) -> Result<(), Refusal>
    requires { class < 8 }
    ensures { (pairs : List ℕ) → outcome_of result ≡ refuse_local (config h pairs) class local }
{
    match local {
        Some(i) if word_header::locals_of(h, class) <= i => Err(Refusal::Local),
        _ => Ok(()),
    }
}

// The class has to be one of 0 to 7, and configured.
fn check_class(h: Header, q: Request) -> Result<(), Refusal>
    ensures { (pairs : List ℕ) → outcome_of result ≡ refuse_class (config h pairs) q }
{
    if 7 < q.class || !word_header::is_configured(h, q.class) {
        return Err(Refusal::Class);
    }
    check_local(h, q.class, q.local)
}

// The refusals 2 to 6, tried in that order. The sum of frame and 2^order is not formed, so that nothing wraps.
pub fn check(h: Header, q: Request, frame: usize) -> Result<(), Refusal>
    ensures { (pairs : List ℕ) → outcome_of result ≡ refusal (config h pairs) q frame }
{
    if 11 < q.order {
        return Err(Refusal::Order);
    }
    let n = word_sizes::size(q.order);
    if h.frames < n || h.frames - n < frame {
        return Err(Refusal::Bounds);
    }
    if frame % n != 0 {
        return Err(Refusal::Misaligned);
    }
    check_class(h, q)
}

// The frame that a get names, 0 if none.
pub fn frame_of(name: Option<usize>) -> usize
    ensures { result ≡ frame_of name }
{
    name.unwrap_or(0)
}
