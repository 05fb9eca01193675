// Sums over the entries and over the locals, by class: what the rows of the statistics are made of.
#![tactic(auto)]

ghost use Rattle.std.specs.Prelude.{◌≡◌, ◌^◌, ◌<◌, ◌≤◌};
ghost use Rattle.stats_by_class.specs.Sums.{free_at, alloc_at, tree_at, held_on, Summed};

// By class, of the entries that have it: their free, 2,048 less their free, their number.
#[derive(Clone, Copy)]
pub struct Entries {
    pub free: [usize; 8],
    pub alloc: [usize; 8],
    pub trees: [usize; 8],
}

// The first n entries, by class.
pub fn entries_by_class(trees: &[u32], n: usize) -> Entries
    requires { n ≤ 1024 }
    ensures { Summed (free_at trees.now) (2 ^ 28) result.free n
        × (Summed (alloc_at 11 trees.now) 2048 result.alloc n × Summed (tree_at trees.now) 1 result.trees n) }
{
    let mut free = [0usize; 8];
    let mut alloc = [0usize; 8];
    let mut count = [0usize; 8];
    for t in 0..n {
        let e = tree_words::load(trees, t);
        let k = e.class;
        free[k] += e.free;
        alloc[k] += 2048usize.saturating_sub(e.free);
        count[k] += 1;
    }
    Entries {
        free,
        alloc,
        trees: count,
    }
}

// The free of the first n locals that are present, by the class of their tree's entry.
pub fn reserved_by_class(trees: &[u32], locals: &[u64], n: usize) -> [usize; 8]
    requires { n < 2048 }
    ensures { Summed (held_on 11 trees.now locals.now) (2 ^ 19) result n }
{
    let mut free = [0usize; 8];
    for j in 0..n {
        let l = local_words::load(locals, j);
        let k = tree_words::load(trees, l.row / 32).class;
        free[k] += if l.present { l.free } else { 0 };
    }
    free
}
