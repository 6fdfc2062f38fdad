//! Names and ages for what stands in the first clauses.
ghost use Rattle.std.specs.Prelude.{◌≡◌, true, IfOk, OnOk};
ghost use Rattle.std.specs.List.{AllByRecursion};
ghost use Rattle.ae_core.specs.Signatures.{IsLawful};
ghost use Rattle.ae_first_round.specs.Inner.First.{AreAllBrought, IsNamedFor};
ghost use Rattle.ae_rules.specs.Derivations.{clause_ok};

use ae_ages::entries::Aged;
use ae_brought_clauses::bring_clause;
use ae_core::formulas::Clause;
use ae_core::lists::List;
use ae_core::problems::Signature;
use ae_store::store::Store;
use std::alloc::{AllocError, Global};

/// The names of terms, with the ages of quantified formulas.
#[derive(Drop)]
pub(crate) struct Named {
    pub store: Store,
    pub ages: List<Aged>,
}

/// Brings the literals of clauses at generation 0.
fn bring_clauses(
    alloc: Global,
    signature: &Signature,
    store: &mut Store,
    ages: &mut List<Aged>,
    clauses: &[Clause],
) -> Result<(), AllocError>
    requires same { signature.now ≡ store.old.signature }
    requires sorted { AllByRecursion (λ c. clause_ok signature.now c ≡ true) clauses.now }
    ensures { OnOk result (AreAllBrought store.old ages.old store.new ages.new clauses.now) }
{
    for clause in clauses {
        bring_clause(alloc, signature, store, ages, &[], clause.as_slice(), 0)?;
    }
    Ok(())
}

/// The names of the terms of clauses, and the ages of their quantified parts, all of generation 0.
pub(crate) fn first_named(
    alloc: Global,
    signature: &Signature,
    clauses: &[Clause],
) -> Result<Named, AllocError>
    requires lawful { IsLawful signature.now }
    requires sorted { AllByRecursion (λ c. clause_ok signature.now c ≡ true) clauses.now }
    ensures { IfOk result (λ n. IsNamedFor signature.now clauses.now n.store n.ages) }
{
    let mut store = Store::new(alloc, signature)?;
    let mut ages = List::new(alloc);
    bring_clauses(alloc, signature, &mut store, &mut ages, clauses)?;
    let _count = store.len();
    Ok(Named { store, ages })
}
