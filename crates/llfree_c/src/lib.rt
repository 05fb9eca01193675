// The library for C and Rust: the exported calls with C types. Each answers with a number of document 01 on any arguments, table, header, lengths, words and rows.
#![tactic(auto)]

ghost use Rattle.rules_calls.specs.Promises.{words};
ghost use Rattle.c_forms.specs.Args.{name_of, asking};
ghost use Rattle.llfree_c.specs.Promises.{StartNumber, GetAnswer, PutNumber, DrainNumber, StatisticsAnswer};

use c_forms::Summary;
use c_numbers::Answer;
use rules::Header;
use rules_calls::Tally;

// A start, all free or all held.
pub fn llfree_start(
    h: Header,
    table: &[u32; 64],
    trees: &mut [u32],
    locals: &mut [u64],
    bits: &mut [u64],
    free: bool,
) -> usize
    ensures { StartNumber h table.now free (words trees.old locals.old bits.old)
        result (words trees.new locals.new bits.new) }
{
    c_numbers::number(start::start(h, table, trees, locals, bits, free))
}

// A get, of the named frame or of any.
pub fn llfree_get(
    h: Header,
    table: &[u32; 64],
    trees: &mut [u32],
    locals: &mut [u64],
    bits: &mut [u64],
    named: bool,
    frame: usize,
    order: usize,
    class: usize,
    given: bool,
    local: usize,
) -> Answer
    ensures { GetAnswer h table.now (name_of named frame) (asking order class given local) (words trees.old locals.old bits.old)
        result (words trees.new locals.new bits.new) }
{
    let name = named.then_some(frame);
    let q = c_forms::ask(order, class, given, local);
    c_numbers::answered(get::get(h, table, trees, locals, bits, name, q))
}

// A put of the block at a frame.
pub fn llfree_put(
    h: Header,
    table: &[u32; 64],
    trees: &mut [u32],
    locals: &mut [u64],
    bits: &mut [u64],
    frame: usize,
    order: usize,
    class: usize,
    given: bool,
    local: usize,
) -> usize
    ensures { PutNumber h table.now frame (asking order class given local) (words trees.old locals.old bits.old)
        result (words trees.new locals.new bits.new) }
{
    let q = c_forms::ask(order, class, given, local);
    c_numbers::number(put::put(h, table, trees, locals, bits, frame, q))
}

// Every reservation is returned.
pub fn llfree_drain(
    h: Header,
    table: &[u32; 64],
    trees: &mut [u32],
    locals: &mut [u64],
    bits: &mut [u64],
) -> usize
    ensures { DrainNumber h table.now (words trees.old locals.old bits.old)
        result (words trees.new locals.new bits.new) }
{
    c_numbers::number(drain::drain(h, table, trees, locals, bits))
}

// Statistics: one call, and its answer in numbers.
pub fn llfree_statistics(
    h: Header,
    table: &[u32; 64],
    trees: &[u32],
    locals: &[u64],
    bits: &[u64],
    rows: &mut [Tally],
) -> Summary
    ensures { StatisticsAnswer h table.now (words trees.now locals.now bits.now)
        rows.old result rows.new }
{
    c_forms::summed(statistics::statistics(h, table, trees, locals, bits, rows))
}
