//! Conflicts of assumed literals.
ghost use Rattle.std.specs.Prelude.{◌≡◌, ℕ, true, slice_get, Some, IfOk, IfNone, IfSome};
ghost use Rattle.ae_core.specs.Sorts.{formula_ok};
ghost use Rattle.ae_pmap.specs.Forest.{present};
ghost use Rattle.ae_pmap.specs.Pairs.{found};
ghost use Rattle.ae_store.specs.Growing.{IsFront};
ghost use Rattle.ae_store.specs.Stores.{Stored};
ghost use Rattle.ae_conflicts.specs.declared.assumed.Assumed.{Assumed as AssumedView};
ghost use Rattle.ae_literals.specs.declared.unmet.Unmet.TheVariants.{Contradicted, Opposed, Mixed};
ghost use Rattle.ae_whole_values.specs.Wholes.{AreAllWhole};
ghost use Rattle.ae_state.specs.Complete.{IsOwnConflict};
ghost use Rattle.ae_turns.specs.Representing.{IsTaken};
ghost use Rattle.ae_unmet.specs.Inner.Found.{IsFound};
ghost use Rattle.ae_unmet.specs.Inner.Growing.{HasGrown};

use crate::saying::{atom_at, said_at};
use crate::stating::{state_each, state_equal};
use ae_conflicts::Conflict;
use ae_literals::Said;
use ae_num::forms::Name;
use ae_state::Holding;
use ae_store::store::Store;
use ae_whole_values::first_fraction;
use ae_whole_values::laws::fractions_of_names_are_conflicts;
use std::alloc::{AllocError, Global};

/// Adds a conflict, and answers its number.
fn push_conflict(held: &mut Holding, conflict: Conflict) -> Result<usize, AllocError>
    ensures at { IfOk result (λ k. slice_get held.new.conflicts k ≡ Some conflict) }
    ensures front { IsFront held.old.conflicts held.new.conflicts }
    ensures others { held.new ≡ record held.old { conflicts = held.new.conflicts } }
{
    let number = held.conflicts.len();
    held.conflicts.push(conflict)?;
    Ok(number)
}

/// Adds the conflict of a literal which says that two names differ that have one value.
pub(crate) fn contradicted(
    alloc: Global,
    held: &mut Holding,
    store: &Store,
    literal: usize,
) -> Result<usize, AllocError>
    requires taken { IsTaken held.old store.now }
    requires found { IsFound store.now held.old (Contradicted literal) }
    ensures grown { HasGrown store.now held.old held.new }
    ensures own { IfOk result (IsOwnConflict held.new) }
{
    match said_at(held, literal) {
        Said::Equal { left, right, .. } => {
            let step = state_equal(alloc, held, store, left, right)?;
            push_conflict(held, Conflict::Differ { literal, step })
        }
        Said::Atom { .. } => unreachable!(),
        Said::Other => unreachable!(),
    }
}

/// Adds the conflict of two literals, of which one says that a predicate holds, and the other that it doesn't hold of the same values.
pub(crate) fn opposed(
    alloc: Global,
    held: &mut Holding,
    store: &Store,
    positive: usize,
    negative: usize,
) -> Result<usize, AllocError>
    requires taken { IsTaken held.old store.now }
    requires found { IsFound store.now held.old (Opposed positive negative) }
    requires sorted { (a : AssumedView) → found (present held.old.assumed) positive ≡ Some a → formula_ok held.old.signature a.lit.formula ≡ true }
    ensures grown { HasGrown store.now held.old held.new }
    ensures own { IfOk result (IsOwnConflict held.new) }
{
    let Some(first) = atom_at(held, positive) else {
        unreachable!()
    };
    let Some(second) = atom_at(held, negative) else {
        unreachable!()
    };
    let left = store.node(first).args.as_slice();
    let right = store.node(second).args.as_slice();
    let steps = state_each(alloc, held, store, left, right)?;
    push_conflict(
        held,
        Conflict::Opposed {
            positive,
            negative,
            steps,
        },
    )
}

/// Adds the conflict of two different constructors that have one value.
pub(crate) fn mixed(
    alloc: Global,
    held: &mut Holding,
    store: &Store,
    first: Name,
    second: Name,
) -> Result<usize, AllocError>
    requires taken { IsTaken held.old store.now }
    requires found { IsFound store.now held.old (Mixed first second) }
    ensures grown { HasGrown store.now held.old held.new }
    ensures own { IfOk result (IsOwnConflict held.new) }
{
    let step = state_equal(alloc, held, store, first, second)?;
    push_conflict(held, Conflict::Mixed { step })
}

/// Adds the conflict of the first value of an integer that isn't whole, where there is one.
pub(crate) fn fraction(held: &mut Holding) -> Result<Option<usize>, AllocError>
    requires taken { (s : Stored) × IsTaken held.old s }
    ensures grown { (s : Stored) → IsTaken held.old s → HasGrown s held.old held.new }
    ensures own { IfOk result (λ number. IfSome number (IsOwnConflict held.new)) }
    ensures none { IfOk result (λ number. IfNone number ((held.new ≡ held.old) × AreAllWhole held.old.values)) }
{
    fractions_of_names_are_conflicts();
    match first_fraction(&held.values) {
        Some(step) => {
            let number = push_conflict(held, Conflict::Unsolvable { step })?;
            Ok(Some(number))
        }
        None => Ok(None),
    }
}
