// The rows of the statistics by value: the row of a class, the eight rows.
#![tactic(auto, using(law_rules::specs::Sum::sum_loop, stats_by_class::specs::Sums::few), unfolding(rules_calls::specs::Statistics::local_free, rules::specs::Words::slot, crate::specs::Rows::free_from, crate::specs::Rows::row_of))]

ghost use Rattle.std.specs.Prelude.{◌≡◌, List, ℕ, ◌^◌, ◌<◌, ◌≤◌, get_or};
ghost use Rattle.rules.specs.Words.{config};
ghost use Rattle.rules_calls.specs.Statistics.{local_free, tallies};
ghost use Rattle.stats_rows.specs.Rows.{row_of};

use rules::Header;
use rules_calls::Tally;
use stats_by_class::Entries;

// The free of the locals of a class. A loop, since the check does not find that an iterator's sum fits.
fn local_free(h: Header, locals: &[u64], class: usize) -> usize
    requires { class < 8 }
    ensures { ((pairs : List ℕ) → result ≡ local_free (config h pairs) locals.now class) × (result ≤ 2 ^ 27) }
{
    let first = word_header::first_slot(h, class);
    let n = word_header::locals_of(h, class);
    let mut free: usize = 0;
    for i in 0..n {
        free += local_words::load(locals, first + i).free;
    }
    free
}

// The row of a class, of the entries by class, and the free of the reservations by class.
fn class_row(h: Header, locals: &[u64], e: Entries, reserved: [usize; 8], class: usize) -> Tally
    requires { (class < 8) × ((get_or e.free class 0 < 2 ^ 40) × (get_or e.trees class 0 < 2 ^ 40)) }
    ensures { (pairs : List ℕ) → result ≡ row_of 11 e (local_free (config h pairs) locals.now class) reserved class }
{
    let taken = (2048 * e.trees[class]).saturating_sub(e.free[class]);
    Tally {
        free: e.free[class] + local_free(h, locals, class),
        alloc: e.alloc[class],
        used: taken.saturating_sub(reserved[class]),
    }
}

// A row of zeros.
pub const ZERO: Tally = Tally {
    free: 0,
    alloc: 0,
    used: 0,
};

// The rows of all classes, each with its class by a constant: at another index the arrays by class are stored again.
pub fn all_rows(h: Header, trees: &[u32], locals: &[u64]) -> [Tally; 8]
    requires { h.frames ≤ 2 ^ 21 }
    ensures { (pairs : List ℕ) → result ≡ tallies (config h pairs) trees.now locals.now 0 8 }
{
    let e = stats_by_class::entries_by_class(trees, word_header::tree_count(h.frames));
    let held = stats_by_class::reserved_by_class(trees, locals, word_header::local_count(h));
    [
        class_row(h, locals, e, held, 0),
        class_row(h, locals, e, held, 1),
        class_row(h, locals, e, held, 2),
        class_row(h, locals, e, held, 3),
        class_row(h, locals, e, held, 4),
        class_row(h, locals, e, held, 5),
        class_row(h, locals, e, held, 6),
        class_row(h, locals, e, held, 7),
    ]
}
