// Which local pays: the first that has enough, over the classes from the requested one on that may (crate `word_policy`). Reads the lent words, stores none.
#![tactic(auto)]

ghost use Rattle.std.specs.Prelude.{◌≡◌, Bool, ◌-◌, ◌<◌};
ghost use Rattle.rules.specs.Words.{config};
ghost use Rattle.rules.specs.declared.Kind.{Kind};
ghost use Rattle.rules.specs.Locals.{payer_in, steal_any, demote_any};
ghost use Rattle.local_payers.specs.Loops.{payer_at};

use rules::{Header, Kind, Payer};

// The local of the class k that pays for a request of the class `class`, or nobody.
#[tactic(auto, unfolding(crate::specs::Loops::payer_at, rules::specs::Base::ifte))]
fn payer_at<F: Fn(Kind) -> bool + Copy>(
    h: Header,
    table: &[u32; 64],
    locals: &[u64],
    class: usize,
    from: usize,
    name: Option<usize>,
    n: usize,
    may: F,
    k: usize,
) -> Option<Payer>
    requires classes { (class < 8) × (k < 8) }
    requires callable { F.IsAlwaysCallable may }
    ensures { (p : Kind → Bool) → ((kind : Kind) (r : Bool) → F.post may kind r → r ≡ p kind)
        → result ≡ payer_at p (config h table.now) locals.now class from name n k }
{
    if word_header::is_configured(h, k) && may(word_policy::ask(table, class, k, n)) {
        return local_first::first_local(h, locals, k, from, name, n);
    }
    None
}

// The first local that pays, over the classes from the i-th after the requested one on, modulo 8.
fn payer_in<F: Fn(Kind) -> bool + Copy>(
    h: Header,
    table: &[u32; 64],
    locals: &[u64],
    class: usize,
    from: usize,
    name: Option<usize>,
    n: usize,
    may: F,
    i: usize,
) -> Option<Payer>
    requires class { class < 8 }
    requires callable { F.IsAlwaysCallable may }
    ensures { (p : Kind → Bool) → ((kind : Kind) (r : Bool) → F.post may kind r → r ≡ p kind)
        → result ≡ payer_in p (config h table.now) locals.now class from name n i (8 - i) }
{
    for d in i..8 {
        let k = (class + d) % 8;
        if let Some(payer) = payer_at(h, table, locals, class, from, name, n, may, k) {
            return Some(payer);
        }
    }
    None
}

// Steal: the first local that pays, over all classes from the requested one on.
pub fn steal_any(
    h: Header,
    table: &[u32; 64],
    locals: &[u64],
    class: usize,
    from: usize,
    name: Option<usize>,
    n: usize,
) -> Option<Payer>
    requires { class < 8 }
    ensures { result ≡ steal_any (config h table.now) locals.now class from name n }
{
    payer_in(
        h,
        table,
        locals,
        class,
        from,
        name,
        n,
        word_policy::may_pay,
        0,
    )
}

// Demote: the first local whose reservation may move, over the other classes.
pub fn demote_any(
    h: Header,
    table: &[u32; 64],
    locals: &[u64],
    class: usize,
    from: usize,
    name: Option<usize>,
    n: usize,
) -> Option<Payer>
    requires { class < 8 }
    ensures { result ≡ demote_any (config h table.now) locals.now class from name n }
{
    payer_in(
        h,
        table,
        locals,
        class,
        from,
        name,
        n,
        word_policy::may_move,
        1,
    )
}
