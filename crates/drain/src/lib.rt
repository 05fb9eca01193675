// Drain, the exported call: the state test and the body. It answers with a number of document 01 on any table, header, lengths and words.
#![tactic(auto)]

ghost use Rattle.rules_calls.specs.Promises.{words, DrainPromise};

use rules::Header;
use rules_calls::Refusal;

// Every reservation is returned.
pub fn drain(
    h: Header,
    table: &[u32; 64],
    trees: &mut [u32],
    locals: &mut [u64],
    bits: &mut [u64],
) -> Result<(), Refusal>
    ensures { DrainPromise h table.now (words trees.old locals.old bits.old)
        result (words trees.new locals.new bits.new) }
{
    if !test_state::stands(h, table, trees, locals, bits) {
        return Err(Refusal::Broken);
    }
    drain_body::drain_body(h, table, trees, locals)
}
