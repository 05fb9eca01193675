// What the acceptance test asks of one pair of the policy table: its form, and the rules of good pairs.
#![tactic(auto, using(std::proofs::lemmas::Bool::Decides::nat_tests, law_rules::specs::All::all_loop), unfolding(rules::specs::Policy::pair_formed, rules::specs::Policy::kind_of, rules::specs::Policy::cut_of, law_rules::specs::Rows::leads_back, law_rules::specs::Rows::covers, law_rules::specs::Rows::demote_covers,))]

ghost use Rattle.std.specs.Prelude.{◌≡◌, ◌<◌};
ghost use Rattle.rules.specs.Words.{config};
ghost use Rattle.rules.specs.declared.Header.{Header};
ghost use Rattle.rules.specs.Policy.{pair_formed};
ghost use Rattle.law_rules.specs.Rows.{pair_covered, covers, leads_back, demote_covers};

use rules::Header;

// A pair's word has its kind's form.
pub fn formed(w: u32) -> bool
    ensures { result ≡ pair_formed 11 w }
{
    if w % 4 == 3 {
        w / 4 % 16384 <= 2048
    } else {
        w < 4
    }
}

// If (e, f) is good then (o, f) is good.
fn pair_covered(table: &[u32; 64], o: usize, e: usize, f: usize) -> bool
    requires { (o < 8) × ((e < 8) × (f < 8)) }
    ensures { (h : Header) → result ≡ pair_covered (config h table.now) o e f }
{
    !word_policy::is_good(table, e, f) || word_policy::is_good(table, o, f)
}

// Every class that e is good with, o is good with.
fn covers(table: &[u32; 64], o: usize, e: usize) -> bool
    requires { (o < 8) × (e < 8) }
    ensures { (h : Header) → result ≡ covers (config h table.now) o e }
{
    for f in 0..8 {
        if !pair_covered(table, o, e, f) {
            return false;
        }
    }
    true
}

// The second rule at (o, e): if it is good and (e, default) is not Invalid then (o, default) is good.
pub fn leads_back(h: Header, table: &[u32; 64], o: usize, e: usize) -> bool
    requires { (h.default < 8) × ((o < 8) × (e < 8)) }
    ensures { result ≡ leads_back (config h table.now) o e }
{
    !word_policy::is_good(table, o, e)
        || word_policy::kind_at(table, e, h.default) == 0
        || word_policy::is_good(table, o, h.default)
}

// The third rule at (o, e): if it is Demote then o covers e.
pub fn demote_covers(table: &[u32; 64], o: usize, e: usize) -> bool
    requires { (o < 8) × (e < 8) }
    ensures { (h : Header) → result ≡ demote_covers (config h table.now) o e }
{
    word_policy::kind_at(table, o, e) != 2 || covers(table, o, e)
}
