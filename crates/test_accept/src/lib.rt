// The acceptance test of header and policy table, made at each exported call: the table row by row.
#![tactic(auto, using(std::proofs::lemmas::Bool::Decides::nat_tests, law_rules::specs::All::all_loop), unfolding(rules::specs::Policy::accepted, rules::specs::Policy::frames_accepted, rules::specs::Policy::places_accepted, rules::specs::Policy::default_accepted))]

ghost use Rattle.std.specs.Prelude.{◌≡◌};
ghost use Rattle.rules.specs.Base.{all_below};
ghost use Rattle.rules.specs.Words.{config};
ghost use Rattle.rules.specs.Policy.{accepted};
ghost use Rattle.law_rules.specs.Rows.{place_fits};

use rules::Header;

// No class has more than 32 locals.
fn places_fit(h: Header) -> bool
    ensures { result ≡ all_below 8 (place_fits h.places) }
{
    h.places.iter().all(|place| *place <= 33)
}

// Header and policy table as a start accepts them.
pub fn accepts(h: Header, table: &[u32; 64]) -> bool
    ensures { result ≡ accepted (config h table.now) }
{
    1 <= h.frames
        && h.frames <= 2097152
        && places_fit(h)
        && h.default < 8
        && word_header::configured_in(&h.places, h.default)
        && test_accept_rows::rows_accepted(h, &h.places, table)
}
