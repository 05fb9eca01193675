// Statistics, the exported call: it is told by value, and the lent rows are filled.
#![tactic(auto)]

ghost use Rattle.rules_calls.specs.Promises.{words, StatisticsPromise};

use rules::Header;
use rules_calls::{Refusal, Tally, Totals};

// Statistics: one call, one test and eight stores, for which the archive asks for no function from outside.
pub fn statistics(
    h: Header,
    table: &[u32; 64],
    trees: &[u32],
    locals: &[u64],
    bits: &[u64],
    rows: &mut [Tally],
) -> Result<Totals, Refusal>
    ensures { StatisticsPromise h table.now (words trees.now locals.now bits.now)
        rows.old result rows.new }
{
    let told = stats_told::tell(h, table, trees, locals, bits, rows.len())?;
    rows[0] = told.rows[0];
    rows[1] = told.rows[1];
    rows[2] = told.rows[2];
    rows[3] = told.rows[3];
    rows[4] = told.rows[4];
    rows[5] = told.rows[5];
    rows[6] = told.rows[6];
    rows[7] = told.rows[7];
    Ok(told.totals)
}
