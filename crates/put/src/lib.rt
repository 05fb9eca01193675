// Put, the exported call: the state test, the argument tests, the body. It answers with a number of document 01 on any arguments, table, header, lengths and words.
#![tactic(auto)]

ghost use Rattle.rules_calls.specs.Promises.{words, PutPromise};

use rules::{Header, Request};
use rules_calls::Refusal;
use test_fits::Ask;

// A put of the block at a frame.
pub fn put(
    h: Header,
    table: &[u32; 64],
    trees: &mut [u32],
    locals: &mut [u64],
    bits: &mut [u64],
    frame: usize,
    q: Request,
) -> Result<(), Refusal>
    ensures { PutPromise h table.now frame q (words trees.old locals.old bits.old)
        result (words trees.new locals.new bits.new) }
{
    if !test_state::stands(h, table, trees, locals, bits) {
        return Err(Refusal::Broken);
    }
    if let Err(x) = test_arguments::check(h, q, frame) {
        return Err(x);
    }
    put_body::put_body(Ask { h, q }, table, trees, locals, bits, frame)
}
