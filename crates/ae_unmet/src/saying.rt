//! What the assumed literals say, and what of it isn't met.
ghost use Rattle.std.specs.Prelude.{◌≡◌, ℕ, Bool, Some, IfOk, IfNone, IfSome};
ghost use Rattle.ae_core.specs.Sorts.{formula_ok as is_well_sorted};
ghost use Rattle.ae_pmap.specs.Forest.{present};
ghost use Rattle.ae_pmap.specs.Pairs.{found};
ghost use Rattle.ae_conflicts.specs.declared.assumed.Assumed.{Assumed as AssumedView};
ghost use Rattle.ae_literals.specs.declared.said.Said.{Said as SaidView};
ghost use Rattle.ae_literals.specs.declared.said.Said.TheVariants.{Atom};
ghost use Rattle.ae_turns.specs.Representing.{IsTaken, AreRepresentatives};
ghost use Rattle.ae_unmet.specs.Inner.Found.{AreSaidBy, IsFound, IsNoneFound};

use ae_core::lists::List;
use ae_core::sorts::formula_ok;
use ae_literals::{Said, Unmet, first_unmet};
use ae_num::forms::Name;
use ae_state::Holding;
use ae_store::store::Store;
use std::alloc::{AllocError, Global};

/// What the literal at a place says; nothing where no literal is there.
pub fn said_at(held: &Holding, place: usize) -> Said
    ensures { (y : SaidView) → found (present held.now.said) place ≡ Some y → result ≡ y }
{
    match held.said.get(place) {
        Some(said) => *said,
        None => Said::Other,
    }
}

/// The name of the atom that the literal at a place says to be true or false, where it says so.
pub(crate) fn atom_at(held: &Holding, place: usize) -> Option<Name>
    ensures { (b : Bool) (n : ℕ) → found (present held.now.said) place ≡ Some (Atom b n) → result ≡ Some n }
{
    match said_at(held, place) {
        Said::Equal { .. } => None,
        Said::Atom { name, .. } => Some(name),
        Said::Other => None,
    }
}

/// The tag of the literal at a place; 0 where no literal is there.
pub(crate) fn tag_at(held: &Holding, place: usize) -> usize
    ensures { (a : AssumedView) → found (present held.now.assumed) place ≡ Some a → result ≡ a.tag }
{
    match held.assumed.get(place) {
        Some(assumed) => assumed.tag,
        None => 0,
    }
}

/// Whether the literal at a place is well sorted.
pub(crate) fn is_sorted_at(alloc: Global, held: &Holding, place: usize) -> Result<bool, AllocError>
    ensures { IfOk result (λ sorted. (a : AssumedView) → found (present held.now.assumed) place ≡ Some a → sorted ≡ is_well_sorted held.now.signature a.lit.formula) }
{
    match held.assumed.get(place) {
        Some(assumed) => formula_ok(alloc, &held.signature, &assumed.lit.formula),
        None => Ok(false),
    }
}

/// What the assumed literals say, each at its place.
fn all_said(alloc: Global, held: &Holding) -> Result<List<Said>, AllocError>
    ensures { IfOk result (AreSaidBy held.now) }
{
    let mut said = List::new(alloc);
    for place in 0..held.next {
        said.push(said_at(held, place))?;
    }
    Ok(said)
}

/// The first of it that isn't met by representatives.
pub(crate) fn first_found(
    alloc: Global,
    held: &Holding,
    store: &Store,
    reps: &[Name],
) -> Result<Option<Unmet>, AllocError>
    requires taken { IsTaken held.now store.now }
    requires reps { AreRepresentatives held.now reps.now }
    ensures some { IfOk result (λ unmet. IfSome unmet (IsFound store.now held.now)) }
    ensures none { IfOk result (λ unmet. IfNone unmet (IsNoneFound store.now held.now reps.now)) }
{
    let said = all_said(alloc, held)?;
    first_unmet(alloc, &held.signature, store, reps, said.as_slice())
}
