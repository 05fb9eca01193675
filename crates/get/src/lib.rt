// Get, the exported call: the state test, the argument tests, the routes. It answers with a number of document 01 on any arguments, table, header, lengths and words.
#![tactic(auto)]

ghost use Rattle.rules_calls.specs.Promises.{words, GetPromise};

use rules::{Header, Request};
use rules_calls::{Refusal, Reply};
use test_fits::Ask;

// A get, of the named frame or of any.
pub fn get(
    h: Header,
    table: &[u32; 64],
    trees: &mut [u32],
    locals: &mut [u64],
    bits: &mut [u64],
    name: Option<usize>,
    q: Request,
) -> Reply
    ensures { GetPromise h table.now name q (words trees.old locals.old bits.old)
        result (words trees.new locals.new bits.new) }
{
    if !test_state::stands(h, table, trees, locals, bits) {
        return get_answer::refused(Refusal::Broken);
    }
    if let Err(x) = test_arguments::check(h, q, test_arguments::frame_of(name)) {
        return get_answer::refused(x);
    }
    get_answer::reply(get_routes::routes(Ask { h, q }, table, trees, locals, bits, name))
}
