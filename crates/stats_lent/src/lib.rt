// Statistics for a program that has no rows of its own to lend: rows of zeros are lent for the call, and come back by value.
#![tactic(auto)]

ghost use Rattle.std.specs.Prelude.{◌≡◌};
ghost use Rattle.rules.specs.Words.{config};
ghost use Rattle.stats_told.specs.Stats.{stats_of};

use rules::Header;
use rules_calls::Refusal;
use stats_told::Stats;

// Statistics, lent so many rows, at most sixteen.
pub fn report(
    h: Header,
    table: &[u32; 64],
    trees: &[u32],
    locals: &[u64],
    bits: &[u64],
    n: usize,
) -> Result<Stats, Refusal>
    ensures { result ≡ stats_of (config h table.now) trees.now locals.now bits.now n }
{
    let mut lent = [stats_rows::ZERO; 16];
    let m = n.min(16);
    let totals = statistics::statistics(h, table, trees, locals, bits, &mut lent[..m])?;
    let rows = [
        lent[0], lent[1], lent[2], lent[3], lent[4], lent[5], lent[6], lent[7],
    ];
    Ok(Stats { totals, rows })
}
