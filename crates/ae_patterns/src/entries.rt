//! What is known of a name for good.
ghost use Rattle.std.specs.Prelude.{◌≡◌, ◌<◌, length, IfOk};
ghost use Rattle.ae_store.specs.Shapes.{shapes};
ghost use Rattle.ae_store.specs.Terms.{terms};
ghost use Rattle.ae_patterns.specs.Patterns.{IsEntryOf};

use crate::patterns::pattern;
use ae_core::copies::copy_sort;
use ae_core::problems::Signature;
use ae_num::forms::Name;
use ae_store::store::Store;
use ae_value_table::Entry;
use std::alloc::{AllocError, Global};

/// What is known of a name for good: its sort, and what its value is made of.
pub fn entry(
    alloc: Global,
    signature: &Signature,
    store: &Store,
    name: Name,
) -> Result<Entry, AllocError>
    requires same { signature.now ≡ store.now.signature }
    requires name { name < length store.now.nodes }
    ensures { IfOk result (λ entry. IsEntryOf store.now.signature (terms (shapes store.now.nodes)) name entry) }
{
    let _len = store.len();
    let node = store.node(name);
    let sort = copy_sort(alloc, &node.sort)?;
    let pattern = pattern(alloc, signature, store, name)?;
    Ok(Entry { sort, pattern })
}
