//! The names that a search starts with.
ghost use Rattle.std.specs.Prelude.{◌≡◌, true, IfOk};
ghost use Rattle.std.specs.List.{AllByRecursion};
ghost use Rattle.ae_core.specs.Signatures.{IsLawful};
ghost use Rattle.ae_rules.specs.Derivations.{clause_ok};
ghost use Rattle.ae_goal_search.specs.Started.{IsStoreOf};

use ae_core::formulas::Clause;
use ae_core::problems::Signature;
use ae_goal_names::name_clauses;
use ae_store::store::Store;
use std::alloc::{AllocError, Global};

/// The names of the terms of clauses.
pub fn named_store(
    alloc: Global,
    signature: &Signature,
    clauses: &[Clause],
) -> Result<Store, AllocError>
    requires lawful { IsLawful signature.now }
    requires sorted { AllByRecursion (λ c. clause_ok signature.now c ≡ true) clauses.now }
    ensures { IfOk result (IsStoreOf signature.now clauses.now) }
{
    let mut store = Store::new(alloc, signature)?;
    name_clauses(alloc, &mut store, signature, clauses)?;
    let _count = store.len();
    Ok(store)
}
