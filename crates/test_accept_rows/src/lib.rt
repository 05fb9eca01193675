// The policy table as the acceptance test walks it, row by row: each pair of a configured class accepted, those of an unconfigured one zero.
#![tactic(auto, using(std::proofs::lemmas::Bool::Decides::nat_tests, law_rules::specs::All::all_loop), unfolding(rules::specs::Policy::good, law_rules::specs::Rows::cell_accepted, law_rules::specs::Rows::row_accepted, law_rules::specs::Rows::row_empty))]

ghost use Rattle.std.specs.Prelude.{◌≡◌, ◌<◌};
ghost use Rattle.rules.specs.Base.{all_below};
ghost use Rattle.rules.specs.Words.{config};
ghost use Rattle.rules.specs.declared.Header.{Header};
ghost use Rattle.law_rules.specs.Rows.{cell_accepted, row_empty, row_accepted};

use rules::Header;

// The pair of a configured class o and a class e: its form, and the second and the third rule; zero if e is unconfigured.
fn cell_accepted(h: Header, places: &[u8; 8], table: &[u32; 64], o: usize, e: usize) -> bool
    requires { (places.now ≡ h.places) × ((h.default < 8) × ((o < 8) × (e < 8))) }
    ensures { result ≡ cell_accepted (config h table.now) o e }
{
    let pair = word_policy::pair_at(table, o, e);
    if word_header::configured_in(places, e) {
        test_accept_pairs::formed(pair)
            && test_accept_pairs::leads_back(h, table, o, e)
            && test_accept_pairs::demote_covers(table, o, e)
    } else {
        pair == 0
    }
}

// The eight pairs of a configured class o.
fn cells_accepted(h: Header, places: &[u8; 8], table: &[u32; 64], o: usize) -> bool
    requires { (places.now ≡ h.places) × ((h.default < 8) × (o < 8)) }
    ensures { result ≡ all_below 8 (cell_accepted (config h table.now) o) }
{
    for e in 0..8 {
        if !cell_accepted(h, places, table, o, e) {
            return false;
        }
    }
    true
}

// The eight pairs of an unconfigured class o are zero: so is what has a bit of any of them.
fn row_empty(table: &[u32; 64], o: usize) -> bool
    requires { o < 8 }
    ensures { (h : Header) → result ≡ row_empty (config h table.now) o }
{
    let mut any: u32 = 0;
    for e in 0..8 {
        any |= word_policy::pair_at(table, o, e);
    }
    any == 0
}

// The eight pairs of a requested class o.
fn row_accepted(h: Header, places: &[u8; 8], table: &[u32; 64], o: usize) -> bool
    requires { (places.now ≡ h.places) × ((h.default < 8) × (o < 8)) }
    ensures { result ≡ row_accepted (config h table.now) o }
{
    if word_header::configured_in(places, o) {
        word_policy::is_good(table, o, o) && cells_accepted(h, places, table, o)
    } else {
        row_empty(table, o)
    }
}

// The table: its form and the three rules.
pub fn rows_accepted(h: Header, places: &[u8; 8], table: &[u32; 64]) -> bool
    requires { (places.now ≡ h.places) × (h.default < 8) }
    ensures { result ≡ all_below 8 (row_accepted (config h table.now)) }
{
    for o in 0..8 {
        if !row_accepted(h, places, table, o) {
            return false;
        }
    }
    true
}
