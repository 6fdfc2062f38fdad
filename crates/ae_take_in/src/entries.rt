//! What is known of new names for good.
ghost use Rattle.std.specs.Prelude.{◌≡◌, length, OnOk};
ghost use Rattle.ae_store.specs.Growing.{IsFront};
ghost use Rattle.ae_store.specs.Shapes.{shapes};
ghost use Rattle.ae_store.specs.Terms.{terms};
ghost use Rattle.ae_value_table.specs.Versions.{Lasts};
ghost use Rattle.ae_patterns.specs.Patterns.{AreEntriesOf};

use ae_core::problems::Signature;
use ae_patterns::entry;
use ae_store::store::Store;
use ae_value_table::Values;
use std::alloc::{AllocError, Global};

/// Enters what is known of the names of a store that weren't entered yet. What was entered stays where memory is refused.
pub(crate) fn enter_all(
    alloc: Global,
    values: &mut Values,
    signature: &Signature,
    store: &Store,
) -> Result<(), AllocError>
    requires same { signature.now ≡ store.now.signature }
    requires entries { AreEntriesOf store.now.signature (terms (shapes store.now.nodes)) values.old.entries }
    ensures entries { AreEntriesOf store.now.signature (terms (shapes store.now.nodes)) values.new.entries }
    ensures all { OnOk result (length values.new.entries ≡ length (terms (shapes store.now.nodes))) }
    ensures front { IsFront values.old.entries values.new.entries }
    ensures others { values.new ≡ record values.old { entries = values.new.entries } }
    ensures lasts { Lasts values.old values.new }
{
    let end = store.len();
    'names: while values.known() < end {
        let entry = entry(alloc, signature, store, values.known())?;
        values.enter(entry)?;
    }
    Ok(())
}
