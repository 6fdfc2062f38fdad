//! What a formula brings at a generation: the terms that stand in it, and its quantified parts.
ghost use Rattle.std.specs.Prelude.{◌≡◌, true, OnOk};
ghost use Rattle.ae_core.specs.Sorts.{formula_ok};
ghost use Rattle.ae_ages.specs.Interned.{IsBrought};

use crate::entries::{Aged, age};
use crate::interning::{intern_application, intern_both};
use ae_core::formulas::Formula;
use ae_core::lists::List;
use ae_core::problems::Signature;
use ae_store::store::Store;
use std::alloc::{AllocError, Global};

/// Enters the terms and predicate applications of a formula that stand outside quantified parts, at this generation, and gives its quantified parts at
/// most this one. `Err` where there is no memory; some may be there then.
pub fn bring(
    alloc: Global,
    store: &mut Store,
    signature: &Signature,
    entries: &mut List<Aged>,
    formula: &Formula,
    generation: u32,
) -> Result<(), AllocError>
    requires same { signature.now ≡ store.old.signature }
    requires sorted { formula_ok signature.now formula.now ≡ true }
    ensures { OnOk result (IsBrought generation store.old entries.old store.new entries.new formula.now) }
{
    match formula {
        Formula::True => Ok(()),
        Formula::False => Ok(()),
        Formula::All(_) => age(alloc, entries, formula, generation),
        Formula::Ex(_) => age(alloc, entries, formula, generation),
        Formula::Eq { left, right } => intern_both(store, signature, left, right, generation),
        Formula::Lt { left, right } => intern_both(store, signature, left, right, generation),
        Formula::Le { left, right } => intern_both(store, signature, left, right, generation),
        Formula::Pred {
            symbol,
            sorts,
            args,
        } => intern_application(
            alloc,
            store,
            signature,
            *symbol,
            sorts.as_slice(),
            args.as_slice(),
            generation,
        ),
        Formula::Not(part) => bring(alloc, store, signature, entries, part.get(), generation),
        Formula::And(left, right) => {
            bring(alloc, store, signature, entries, left.get(), generation)?;
            bring(alloc, store, signature, entries, right.get(), generation)
        }
        Formula::Or(left, right) => {
            bring(alloc, store, signature, entries, left.get(), generation)?;
            bring(alloc, store, signature, entries, right.get(), generation)
        }
        Formula::Xor(left, right) => {
            bring(alloc, store, signature, entries, left.get(), generation)?;
            bring(alloc, store, signature, entries, right.get(), generation)
        }
        Formula::Iff(left, right) => {
            bring(alloc, store, signature, entries, left.get(), generation)?;
            bring(alloc, store, signature, entries, right.get(), generation)
        }
    }
}
