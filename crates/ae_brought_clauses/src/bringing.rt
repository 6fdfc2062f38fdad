//! Bringing the literals of a clause.
ghost use Rattle.std.specs.Prelude.{◌≡◌, ◌<◌, ℕ, [], List, length, slice_get, true, Some, OnOk};
ghost use Rattle.std.specs.List.{Contains};
ghost use Rattle.ae_ages.specs.Ages.{HasAge};
ghost use Rattle.ae_block_constants.specs.declared.opened.Opened.{Opened as OpenedOf};
ghost use Rattle.ae_brought_clauses.specs.Brought.{AreBrought};
ghost use Rattle.ae_brought_clauses.specs.Inner.Bringing.{AreWithin, Brings, HaveNames, IsAgedAt, IsServed, said_by};
ghost use Rattle.ae_core.specs.Sorts.{formula_ok};
ghost use Rattle.ae_core.specs.declared.formulas.Formula.{out-Formula};
ghost use Rattle.ae_core.specs.declared.terms.Term.{Term};
ghost use Rattle.ae_goal_names.specs.Named.{clause_terms};
ghost use Rattle.ae_rules.specs.Clauses.{Clause};
ghost use Rattle.ae_rules.specs.Derivations.{clause_ok};
ghost use Rattle.ae_rules.specs.Instances as instances;
ghost use Rattle.ae_theory.specs.Names.{terms_in};

use crate::fallen::{older_blocks, take_fallen};
use ae_ages::bringing::bring;
use ae_ages::entries::Aged;
use ae_block_constants::Opened;
use ae_calc::instances::fresh_clause;
use ae_core::formulas::Lit;
use ae_core::lists::List;
use ae_core::problems::Signature;
use ae_store::store::Store;
use std::alloc::{AllocError, Global};

/// Brings literals, one after the other.
fn bring_literals(
    alloc: Global,
    signature: &Signature,
    store: &mut Store,
    ages: &mut List<Aged>,
    literals: &[Lit],
    generation: u32,
) -> Result<(), AllocError>
    requires same { signature.now ≡ store.old.signature }
    requires sorted { clause_ok signature.now literals.now ≡ true }
    ensures { (opened : List OpenedOf) → OnOk result (Brings opened generation store.old ages.old store.new ages.new literals.now) }
{
    for lit in literals {
        bring(alloc, store, signature, ages, &lit.formula, generation)?;
    }
    Ok(())
}

/// Brings the `fresh` clause of an opened block.
fn bring_block(
    alloc: Global,
    signature: &Signature,
    store: &mut Store,
    ages: &mut List<Aged>,
    block: &Opened,
    generation: u32,
) -> Result<(), AllocError>
    requires same { signature.now ≡ store.old.signature }
    requires sorted { formula_ok signature.now block.now.formula ≡ true }
    ensures { (opened : List OpenedOf) → OnOk result (Brings opened generation store.old ages.old store.new ages.new (said_by block.now)) }
{
    match fresh_clause(alloc, &block.formula, block.first)? {
        None => Ok(()),
        Some(clause) => bring_literals(
            alloc,
            signature,
            store,
            ages,
            clause.as_slice(),
            generation,
        ),
    }
}

/// Brings the `fresh` clause of the block at a place, whose terms have names and which has this generation.
fn bring_block_at(
    alloc: Global,
    signature: &Signature,
    store: &mut Store,
    ages: &mut List<Aged>,
    opened: &[Opened],
    place: usize,
    generation: u32,
) -> Result<(), AllocError>
    requires same { signature.now ≡ store.old.signature }
    requires blocks { (o : OpenedOf) → Contains opened.now o → formula_ok signature.now o.formula ≡ true }
    requires there { HaveNames opened.now store.old }
    requires within { place < length opened.now }
    requires aged { IsAgedAt opened.now generation ages.old place }
    ensures brings { OnOk result (Brings opened.now generation store.old ages.old store.new ages.new []) }
    ensures served { OnOk result (IsServed opened.now generation store.new ages.new place) }
{
    let _names = store.len();
    let block = &opened[place];
    bring_block(alloc, signature, store, ages, block, generation)
}

/// Brings the `fresh` clauses of the blocks at these places that have or get this generation.
fn bring_fallen(
    alloc: Global,
    signature: &Signature,
    store: &mut Store,
    ages: &mut List<Aged>,
    opened: &[Opened],
    places: List<usize>,
    generation: u32,
) -> Result<(), AllocError>
    requires same { signature.now ≡ store.old.signature }
    requires blocks { (o : OpenedOf) → Contains opened.now o → formula_ok signature.now o.formula ≡ true }
    requires there { HaveNames opened.now store.old }
    requires within { AreWithin opened.now places }
    ensures brings { OnOk result (Brings opened.now generation store.old ages.old store.new ages.new []) }
    ensures served { OnOk result ((k : ℕ) (o : OpenedOf) → Contains places k → slice_get opened.now k ≡ Some o → HasAge ages.new generation o.formula →
        IsServed opened.now generation store.new ages.new k) }
{
    let mut left = places;
    while let Some(place) = take_fallen(ages.as_slice(), opened, &mut left, generation) {
        bring_block_at(alloc, signature, store, ages, opened, place, generation)?;
    }
    Ok(())
}

/// Brings the literals of a clause at a generation: the terms that stand in them outside quantified parts get names of at most this generation, and their
/// quantified parts at most this one; and so on with the `fresh` clauses of the opened blocks that get it by that. `Err` where there is no memory; some may
/// be there then.
pub fn bring_clause(
    alloc: Global,
    signature: &Signature,
    store: &mut Store,
    ages: &mut List<Aged>,
    opened: &[Opened],
    literals: &[Lit],
    generation: u32,
) -> Result<(), AllocError>
    requires same { signature.now ≡ store.old.signature }
    requires sorted { clause_ok signature.now literals.now ≡ true }
    requires blocks { (o : OpenedOf) → Contains opened.now o → formula_ok signature.now o.formula ≡ true }
    // The terms of the `fresh` clauses of these blocks have names.
    requires there { (o : OpenedOf) → (c : Clause) → (t : Term) → Contains opened.now o → instances.fresh_clause o.formula o.first (out-Formula o.formula) ≡ Some c →
        Contains (clause_terms c) t → Contains (terms_in store.old) t }
    ensures { OnOk result (AreBrought opened.now generation store.old ages.old store.new ages.new literals.now) }
{
    let places = older_blocks(alloc, ages.as_slice(), opened, generation)?;
    bring_literals(alloc, signature, store, ages, literals, generation)?;
    bring_fallen(alloc, signature, store, ages, opened, places, generation)?;
    Ok(())
}
