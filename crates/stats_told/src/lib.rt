// Statistics by value: the answer, and what the lent rows are to be filled with.
#![tactic(auto)]

ghost use Rattle.std.specs.Prelude.{◌≡◌};
ghost use Rattle.rules.specs.Words.{config};
ghost use Rattle.stats_told.specs.Stats.{stats_of};

use rules::Header;
use rules_calls::{Refusal, Tally, Totals};

// What statistics that are done tell, by value: the totals, and the rows of all classes.
#[derive(Clone, Copy)]
pub struct Stats {
    pub totals: Totals,
    pub rows: [Tally; 8],
}

// Statistics by value, where n tally rows are lent: Broken, then Rows where they are not eight.
pub fn tell(
    h: Header,
    table: &[u32; 64],
    trees: &[u32],
    locals: &[u64],
    bits: &[u64],
    n: usize,
) -> Result<Stats, Refusal>
    ensures { result ≡ stats_of (config h table.now) trees.now locals.now bits.now n }
{
    if !test_state::stands(h, table, trees, locals, bits) {
        return Err(Refusal::Broken);
    }
    if n != 8 {
        return Err(Refusal::Rows);
    }
    let totals = stats_totals::totals(h, trees, locals);
    let rows = stats_rows::all_rows(h, trees, locals);
    Ok(Stats { totals, rows })
}
