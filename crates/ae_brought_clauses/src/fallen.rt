//! Blocks whose generations fell.
ghost use Rattle.std.specs.Prelude.{◌≡◌, ◌<◌, ◌++◌, ◌∷◌, [], ℕ, cond, length, slice_get, Some, IfOk, OnOk, MatchOption};
ghost use Rattle.std.specs.List.{list_any};
ghost use Rattle.ae_ages.specs.Ages.{gives_age};
ghost use Rattle.ae_block_constants.specs.declared.opened.Opened.{Opened as OpenedOf};
ghost use Rattle.ae_brought_clauses.specs.Inner.Bringing.{AreAgedBut, AreNotAged, AreWithin, IsAgedAt, IsTakenOut};

use ae_ages::entries::{Aged, has_age};
use ae_block_constants::Opened;
use ae_core::lists::List;
use std::alloc::{AllocError, Global};

/// Whether a block has at most this generation.
fn is_aged(ages: &[Aged], block: &Opened, generation: u32) -> bool
    ensures { result ≡ list_any (gives_age block.now.formula generation) ages.now }
{
    has_age(ages, &block.formula, generation)
}

/// Whether the block at a place has at most this generation.
fn is_aged_at(ages: &[Aged], opened: &[Opened], place: usize, generation: u32) -> bool
    requires { place < length opened.now }
    ensures { (o : OpenedOf) → slice_get opened.now place ≡ Some o → result ≡ list_any (gives_age o.formula generation) ages.now }
{
    let block = &opened[place];
    is_aged(ages, block, generation)
}

/// Puts a place behind others, unless a block has the generation.
fn push_unless(places: &mut List<usize>, aged: bool, place: usize) -> Result<(), AllocError>
    ensures { OnOk result (places.new ≡ places.old ++ cond aged [] (place ∷ [])) }
{
    if aged {
        return Ok(());
    }
    places.push(place)
}

/// The places of the blocks that don't have at most this generation.
pub(crate) fn older_blocks(
    alloc: Global,
    ages: &[Aged],
    opened: &[Opened],
    generation: u32,
) -> Result<List<usize>, AllocError>
    ensures within { IfOk result (AreWithin opened.now) }
    ensures others { IfOk result (AreAgedBut opened.now generation ages.now) }
{
    let mut places = List::new(alloc);
    for place in 0..opened.len() {
        let aged = is_aged_at(ages, opened, place, generation);
        push_unless(&mut places, aged, place)?;
    }
    Ok(places)
}

/// The first of the places whose block has at most this generation: its own place among them.
fn find_fallen(ages: &[Aged], opened: &[Opened], places: &[usize], generation: u32) -> Option<usize>
    requires { AreWithin opened.now places.now }
    ensures { MatchOption result (AreNotAged opened.now generation ages.now places.now)
        (λ at. (k : ℕ) × (slice_get places.now at ≡ Some k) × IsAgedAt opened.now generation ages.now k) }
{
    for at in 0..places.len() {
        let place = places[at];
        if is_aged_at(ages, opened, place, generation) {
            return Some(at);
        }
    }
    None
}

/// Takes out one of the places whose block has at most this generation; none is left where there is no answer.
pub(crate) fn take_fallen(
    ages: &[Aged],
    opened: &[Opened],
    places: &mut List<usize>,
    generation: u32,
) -> Option<usize>
    requires { AreWithin opened.now places.old }
    ensures { MatchOption result (AreNotAged opened.now generation ages.now places.old)
        (IsTakenOut opened.now generation ages.now places.old places.new) }
{
    match find_fallen(ages, opened, places.as_slice(), generation) {
        None => None,
        Some(at) => Some(places.remove(at)),
    }
}
