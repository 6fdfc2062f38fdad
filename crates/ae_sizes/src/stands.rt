//! How the terms of an atom stand in it, and what they weigh there.

ghost use Rattle.std.specs.Prelude.{◌≡◌, ◌+◌, ◌-◌, ◌<◌, ◌≤◌, ℕ, List, Bool, map, min, max, length, take, slice_get, nat_eq};
ghost use Rattle.std.specs.List.{list_any};
ghost use Rattle.ae_core.specs.declared.terms.Sort as core;
ghost use Rattle.ae_elab.specs.Nodes.{Entry, trees_at};
ghost use Rattle.ae_elab.specs.Weights as rule;
ghost use Rattle.ae_sizes.specs.Inner.Counted.{capped, counted_weight, told};
ghost use Rattle.ae_sizes.specs.Inner.Stands.{stand_of, ArePairs};
ghost use Rattle.ae_sizes.specs.Inner.Weights as own;

use crate::measures::{Measure, weight_at};
use crate::weights::{Weight, one_case, standing, together};
use ae_base::lists::at;

/// How the terms of an atom stand in it.
#[derive(Clone, Copy)]
pub enum Stands<'a> {
    Once,
    /// The terms of `distinct`: how many they are, and how many pairs of them, counted up to the greatest number.
    Pairs { count: usize, pairs: u64 },
    /// The values of a record of so many fields, with the places of their fields.
    Fields { count: usize, places: &'a [usize] },
}

// Whether a place is among others.
fn is_among(places: &[usize], place: usize) -> bool
    ensures { result ≡ list_any (nat_eq place) places.now }
{
    places.iter().any(|other| place == *other)
}

// Whether the value at a place among those of a record is that of a field.
fn is_first(count: usize, places: &[usize], place: usize) -> bool
    ensures { result ≡ own.is_first count (take place places.now) (slice_get places.now place) }
{
    match at(places, place) {
        Some(field) => *field < count && !is_among(&places[..place], *field),
        None => false,
    }
}

// The levels above the term at a place of `distinct`, of which there are so many pairs.
fn levels_above(pairs: u64, place: usize) -> u64
    requires { place < 4611686018427387904 }
    ensures { (p : ℕ) → pairs ≡ min p 18446744073709551615 → result ≡ capped (2 + (p - max 1 (place - 1))) }
{
    let later = (place as u64).saturating_sub(1).max(1);
    let above = pairs.saturating_sub(later);
    above.saturating_add(2).min(1_000_001)
}

// The pairs in which a term of `distinct` stands, of so many terms.
fn others(count: usize) -> u64
    ensures { result ≡ capped (count - 1) }
{
    (count as u64).saturating_sub(1).min(1_000_001)
}

// The weight of a term that stands in an atom.
fn stood(stands: Stands<'_>, place: usize, weight: Weight) -> Weight
    requires pairs { ArePairs stands }
    requires small { place < 4611686018427387904 }
    ensures { (w : rule.Weight) → weight ≡ counted_weight w → result ≡ counted_weight (own.standing (stand_of stands.entry place).times (stand_of stands.entry place).levels w) }
{
    match stands {
        Stands::Once => standing(1, 0, weight),
        Stands::Pairs { count, pairs } => {
            let times = others(count);
            let levels = levels_above(pairs, place);
            standing(times, levels, weight)
        }
        Stands::Fields { count, places } => {
            let first = is_first(count, places, place);
            standing(u64::from(first), 0, weight)
        }
    }
}

/// The weight of an atom's terms.
pub fn weigh(measures: &[Measure], last: bool, stands: Stands<'_>, terms: &[usize]) -> Weight
    requires { ArePairs stands }
    ensures { (f : ℕ → core.Sort) (es : List Entry) → measures.now ≡ map (told f) es → result ≡ counted_weight (own.all_standing (stand_of stands.entry) 0 (own.weight_list last f (trees_at es terms.now))) }
{
    let mut weight = one_case(0);
    let mut place = terms.len();
    while 0 < place {
        place -= 1;
        let one = stood(stands, place, weight_at(measures, last, terms[place]));
        weight = together(one, weight);
    }
    weight
}

/// The pairs of so many terms, up to the greatest number that is counted.
#[tactic(auto, using(crate::proofs::CountedLaws::pairs_next))]
pub fn pairs(count: usize) -> u64
    ensures { result ≡ min (rule.pairs count) 18446744073709551615 }
{
    let mut pairs: u64 = 0;
    for n in 0..count {
        pairs = pairs.saturating_add(n as u64);
    }
    pairs
}

/// How many of the fields of a record have no value among these.
pub fn missing(count: usize, places: &[usize]) -> usize
    ensures most { result ≤ count }
    ensures missing { result ≡ rule.missing count places.now }
{
    let mut absent = 0;
    for place in 0..count {
        if !is_among(places, place) {
            absent += 1;
        }
    }
    absent
}
