// Start, the exported call: header, table and lengths are tested, then all words are set. It answers with a number of document 01 on any arguments, table, header, lengths and words.
#![tactic(auto)]

ghost use Rattle.rules_calls.specs.Promises.{words, StartPromise};

use rules::Header;
use rules_calls::Refusal;

// A start, all free or all held.
pub fn start(
    h: Header,
    table: &[u32; 64],
    trees: &mut [u32],
    locals: &mut [u64],
    bits: &mut [u64],
    free: bool,
) -> Result<(), Refusal>
    ensures { StartPromise h table.now free (words trees.old locals.old bits.old)
        result (words trees.new locals.new bits.new) }
{
    if !test_accept::accepts(h, table) {
        return Err(Refusal::Config);
    }
    if test_lengths::lengths_exact(h, trees, locals, bits) {
        start_body::start_body(h, trees, locals, bits, free);
        return Ok(());
    }
    Err(Refusal::Config)
}
