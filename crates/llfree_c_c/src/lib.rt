// The archive: the exported names of the calls with C types (crate `llfree_c`), each with that call's promise.
#![tactic(auto)]

ghost use Rattle.rules_calls.specs.Promises.{words};
ghost use Rattle.c_forms.specs.Args.{name_of, asking};
ghost use Rattle.llfree_c.specs.Promises.{StartNumber, GetAnswer, PutNumber, DrainNumber, StatisticsAnswer};

use c_forms::Summary;
use c_numbers::Answer;
use rules::Header;
use rules_calls::Tally;

// A start, all free or all held.
#[unsafe(no_mangle)]
pub extern "C" fn llfree_start(
    h: Header,
    table: &[u32; 64],
    trees: &mut [u32],
    locals: &mut [u64],
    bits: &mut [u64],
    free: bool,
) -> usize
    ensures { StartNumber h table.now free (words trees.old locals.old bits.old)
        result (words trees.new locals.new bits.new) }
{
    llfree_c::llfree_start(h, table, trees, locals, bits, free)
}

// A get, of the named frame or of any.
#[unsafe(no_mangle)]
pub extern "C" fn llfree_get(
    h: Header,
    table: &[u32; 64],
    trees: &mut [u32],
    locals: &mut [u64],
    bits: &mut [u64],
    named: bool,
    frame: usize,
    order: usize,
    class: usize,
    given: bool,
    local: usize,
) -> Answer
    ensures { GetAnswer h table.now (name_of named frame) (asking order class given local) (words trees.old locals.old bits.old)
        result (words trees.new locals.new bits.new) }
{
    llfree_c::llfree_get(
        h, table, trees, locals, bits, named, frame, order, class, given, local,
    )
}

// A put of the block at a frame.
#[unsafe(no_mangle)]
pub extern "C" fn llfree_put(
    h: Header,
    table: &[u32; 64],
    trees: &mut [u32],
    locals: &mut [u64],
    bits: &mut [u64],
    frame: usize,
    order: usize,
    class: usize,
    given: bool,
    local: usize,
) -> usize
    ensures { PutNumber h table.now frame (asking order class given local) (words trees.old locals.old bits.old)
        result (words trees.new locals.new bits.new) }
{
    llfree_c::llfree_put(
        h, table, trees, locals, bits, frame, order, class, given, local,
    )
}

// Every reservation is returned.
#[unsafe(no_mangle)]
pub extern "C" fn llfree_drain(
    h: Header,
    table: &[u32; 64],
    trees: &mut [u32],
    locals: &mut [u64],
    bits: &mut [u64],
) -> usize
    ensures { DrainNumber h table.now (words trees.old locals.old bits.old)
        result (words trees.new locals.new bits.new) }
{
    llfree_c::llfree_drain(h, table, trees, locals, bits)
}

// Statistics.
#[unsafe(no_mangle)]
pub extern "C" fn llfree_statistics(
    h: Header,
    table: &[u32; 64],
    trees: &[u32],
    locals: &[u64],
    bits: &[u64],
    rows: &mut [Tally],
) -> Summary
    ensures { StatisticsAnswer h table.now (words trees.now locals.now bits.now)
        rows.old result rows.new }
{
    llfree_c::llfree_statistics(h, table, trees, locals, bits, rows)
}
