// Answers in numbers: the number of an outcome in document 01, and what a get answers.
#![tactic(auto)]

ghost use Rattle.std.specs.Prelude.{◌≡◌, List, ℕ};
ghost use Rattle.rules_calls.specs.State.{st};
ghost use Rattle.rules_calls.specs.Calls.{number_of, outcome_of, telling, told_get};

use rules_calls::{Granted, Refusal, Reply};

// The number of a refusal.
#[tactic(auto, unfolding(rules_calls::specs::Calls::number_of))]
pub fn refusal_number(x: Refusal) -> usize
    ensures { result ≡ number_of x }
{
    x as usize
}

// The number of an outcome.
pub fn number(o: Result<(), Refusal>) -> usize
    ensures { result ≡ outcome_of o }
{
    match o {
        Ok(()) => 0,
        Err(x) => refusal_number(x),
    }
}

// What a get answers: the number, the frame and the class (0 and 0 where it is refused), and the counts.
#[repr(C)]
#[derive(Clone, Copy)]
pub struct Answer {
    pub number: usize,
    pub frame: usize,
    pub class: usize,
    pub looks: usize,
    pub tries: usize,
}

// A get's answer in numbers.
pub fn answered(r: Reply) -> Answer
    ensures { (t l b : List ℕ) → telling result.number result.frame result.class (st t l b result.looks result.tries) ≡ told_get r t l b }
{
    match r.granted {
        Ok(Granted { frame, class }) => Answer {
            number: 0,
            frame,
            class,
            looks: r.looks,
            tries: r.tries,
        },
        Err(x) => Answer {
            number: refusal_number(x),
            frame: 0,
            class: 0,
            looks: r.looks,
            tries: r.tries,
        },
    }
}
