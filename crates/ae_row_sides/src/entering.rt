//! The sides of a row as names.
ghost use Rattle.std.specs.Prelude.{◌≡◌, length, slice_get, Some, IfOk, OnErr};
ghost use Rattle.ae_journal.specs.Sides as spec;
ghost use Rattle.ae_journal.specs.Sides.{AreWhole};
ghost use Rattle.ae_core.specs.declared.terms.Sort.{Int};
ghost use Rattle.ae_num.specs.Forms.{IsNormal};
ghost use Rattle.ae_store.specs.Shapes.{shapes};
ghost use Rattle.ae_store.specs.Terms.{terms, Keeps};

use crate::sides::{other_side, side};
use ae_core::problems::Signature;
use ae_num::forms::{Lin, Name};
use ae_store::store::Store;
use std::alloc::{AllocError, Global};

/// The names of a row's sides.
#[derive(Clone, Copy)]
pub struct SideNames {
    /// That of the sum of the positive summands of its opposite.
    pub other: Name,
    /// That of the sum of its positive summands.
    pub side: Name,
}

/// Names of the sides of a row of integers, which are entered as far as they are new: `other` isn't above `side` where the row holds. After refused memory one
/// of them may have been entered.
pub fn enter_sides(
    alloc: Global,
    signature: &Signature,
    store: &mut Store,
    row: &Lin,
    generation: u32,
) -> Result<SideNames, AllocError>
    requires same { signature.now ≡ store.old.signature }
    requires normal { IsNormal row.now }
    requires whole { AreWhole signature.now (terms (shapes store.old.nodes)) row.now }
    ensures other { IfOk result (λ names. slice_get (terms (shapes store.new.nodes)) names.other ≡ Some (spec.other_side Int (terms (shapes store.old.nodes)) row.now)) }
    ensures side { IfOk result (λ names. slice_get (terms (shapes store.new.nodes)) names.side ≡ Some (spec.side Int (terms (shapes store.old.nodes)) row.now)) }
    ensures keeps { Keeps (terms (shapes store.old.nodes)) (terms (shapes store.new.nodes)) }
    ensures signature { store.new.signature ≡ store.old.signature }
{
    let left = other_side(alloc, store, row)?;
    let right = side(alloc, store, row)?;
    let other = store.intern(signature, &left, generation)?;
    let side = store.intern(signature, &right, generation)?;
    Ok(SideNames { other, side })
}
