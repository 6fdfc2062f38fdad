//! The first literal that isn't met.
ghost use Rattle.std.specs.Prelude.{◌≡◌, ◌<◌, ℕ, length, IfOk, IfNone, IfSome};
ghost use Rattle.std.specs.List.{AllByRecursion};
ghost use Rattle.ae_sweeps.specs.Given.{rep_in};
ghost use Rattle.ae_literals.specs.Said.{AreWithin};
ghost use Rattle.ae_literals.specs.Unmet.{IsUnmet, AreAllMet};

use crate::atoms::first_opposed;
use crate::constructors::first_mixed;
use crate::equations::{first_contradicted, first_left_out};
use crate::said::Said;
use ae_core::problems::Signature;
use ae_num::forms::Name;
use ae_store::store::Store;
use std::alloc::{AllocError, Global};

/// What isn't met: literals by their places, and constructors by their names.
#[derive(Clone, Copy, Debug, PartialEq, Eq)]
pub enum Unmet {
    /// The literal says that two names are equal, and they have different representatives.
    LeftOut(usize),
    /// The literal says that two names differ, and they have one representative.
    Contradicted(usize),
    /// One literal says that a predicate holds, and another that it doesn't, of arguments with the same representatives.
    Opposed { positive: usize, negative: usize },
    /// Two different constructors have one representative.
    Mixed { first: Name, second: Name },
}

/// Something that isn't met: a contradiction if there is one, else an equation that is left out. `None` exactly where all literals are met, and no
/// two constructors have one representative.
///
/// `reps` gives the representative of each name, and `said` is what the literals say.
pub fn first_unmet(
    alloc: Global,
    signature: &Signature,
    store: &Store,
    reps: &[Name],
    said: &[Said],
) -> Result<Option<Unmet>, AllocError>
    requires same { signature.now ≡ store.now.signature }
    requires one_each { length reps.now ≡ length store.now.nodes }
    requires reps { AllByRecursion (λ r. r < length store.now.nodes) reps.now }
    requires said { AreWithin (length store.now.nodes) said.now }
    ensures met { IfOk result (λ unmet. IfNone unmet (AreAllMet store.now.signature store.now.nodes (rep_in reps.now) said.now)) }
    ensures unmet { IfOk result (λ unmet. IfSome unmet (λ u. IsUnmet store.now.signature store.now.nodes (rep_in reps.now) said.now u)) }
{
    if let Some(unmet) = first_contradicted(reps, said) {
        return Ok(Some(unmet));
    }
    if let Some(unmet) = first_opposed(store, reps, said) {
        return Ok(Some(unmet));
    }
    if let Some(unmet) = first_mixed(alloc, signature, store, reps)? {
        return Ok(Some(unmet));
    }
    Ok(first_left_out(reps, said))
}
