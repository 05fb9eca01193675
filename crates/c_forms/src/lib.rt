// What C hands in and gets back, by value: arguments as the rules' own, and statistics in numbers.
#![tactic(auto)]

ghost use Rattle.std.specs.Prelude.{◌≡◌};
ghost use Rattle.c_forms.specs.Args.{asking};
ghost use Rattle.c_forms.specs.Summary.{summary_of};

use rules::Request;
use rules_calls::{Refusal, Totals};

// What statistics answer beside the lent rows: the number, total free, free trees.
#[repr(C)]
#[derive(Clone, Copy)]
pub struct Summary {
    pub number: usize,
    pub free: usize,
    pub trees: usize,
}

// What a get or a put asks for.
pub fn ask(order: usize, class: usize, given: bool, local: usize) -> Request
    ensures { result ≡ asking order class given local }
{
    Request {
        order,
        class,
        local: given.then_some(local),
    }
}

// What statistics answer, in numbers.
pub fn summed(totals: Result<Totals, Refusal>) -> Summary
    ensures { result ≡ summary_of totals }
{
    match totals {
        Ok(Totals { free, trees }) => Summary {
            number: 0,
            free,
            trees,
        },
        Err(x) => Summary {
            number: c_numbers::refusal_number(x),
            free: 0,
            trees: 0,
        },
    }
}
