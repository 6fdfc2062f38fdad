//! The matches of an owner at a number, and those of which no same one was taken.
ghost use Rattle.std.specs.Prelude.{◌≡◌, ◌<◌, IfOk, MatchBool, OnOk, not, length, if◌then◌else◌, ◌++◌, ◌∷◌, []};
ghost use Rattle.std.specs.List.{AllByRecursion, filter, list_any};
ghost use Rattle.ae_inst.specs.Matches as taking;
ghost use Rattle.ae_known.specs.Index.{HasHeads};
ghost use Rattle.ae_matches.specs.Answers.{HasClosedConstants};
ghost use Rattle.ae_owed_matches.specs.Found.{AreFound, IsAnyMatch, is_owed};

use ae_core::copies::copy_sorts;
use ae_core::lists::List;
use ae_core::problems::Signature;
use ae_inst::instances::Instances;
use ae_known::known::Known;
use ae_matches::matches::matches;
use ae_matches::one_match::is_match_of;
use ae_store::store::Store;
use ae_theory::theory::Equalities;
use ae_trigger::patterns::{Pattern, Subst};
use std::alloc::{AllocError, Global};

/// The matches of these patterns among the names of generation at most a number: of each pattern one for all that are the same, and no other.
pub fn found<E: Equalities>(
    alloc: Global,
    signature: &Signature,
    store: &Store,
    equalities: &E,
    known: &Known,
    patterns: &[Pattern],
    number: u32,
) -> Result<List<Subst>, AllocError>
    requires same { signature.now ≡ store.now.signature }
    requires fits { E.fits equalities.now store.now }
    requires entered { HasHeads store.now.nodes known.now }
    requires constants { AllByRecursion HasClosedConstants patterns.now }
    requires below { number < 4294967295 }
    ensures { IfOk result (AreFound store.now (E.alike equalities.now) number patterns.now) }
{
    let mut all = List::new(alloc);
    for pattern in patterns {
        let more = matches(
            alloc,
            signature,
            store,
            equalities,
            pattern,
            number + 1,
            known,
        )?;
        all.append(more)?;
    }
    Ok(all)
}

/// Whether sorts and names are themselves a match of one of these patterns among the names of generation at most a number.
pub fn is_found<E: Equalities>(
    alloc: Global,
    signature: &Signature,
    store: &Store,
    equalities: &E,
    known: &Known,
    patterns: &[Pattern],
    number: u32,
    subst: &Subst,
) -> Result<bool, AllocError>
    requires same { signature.now ≡ store.now.signature }
    requires fits { E.fits equalities.now store.now }
    requires entered { HasHeads store.now.nodes known.now }
    requires constants { AllByRecursion HasClosedConstants patterns.now }
    requires below { number < 4294967295 }
    ensures { IfOk result (λ b. MatchBool b (IsAnyMatch store.now (E.alike equalities.now) number patterns.now subst.now) (¬ IsAnyMatch store.now (E.alike equalities.now) number patterns.now subst.now)) }
{
    for pattern in patterns {
        let own = is_match_of(
            alloc,
            signature,
            store,
            equalities,
            pattern,
            number + 1,
            known,
            subst,
        )?;
        if own {
            return Ok(true);
        }
    }
    Ok(false)
}

/// A copy of what a match puts.
pub fn copy_subst(alloc: Global, subst: &Subst) -> Result<Subst, AllocError>
    ensures { IfOk result (λ s. s ≡ subst.now) }
{
    Ok(Subst {
        sorts: copy_sorts(alloc, subst.sorts.as_slice())?,
        terms: List::from_slice(alloc, subst.terms.as_slice())?,
    })
}

/// Adds a copy of the match, where it is owed.
fn push_owed(
    alloc: Global,
    taken: bool,
    subst: &Subst,
    owed: &mut List<Subst>,
) -> Result<(), AllocError>
    ensures { OnOk result (owed.new ≡ (if not taken then owed.old ++ subst.now ∷ [] else owed.old)) }
{
    if !taken {
        let copy = copy_subst(alloc, subst)?;
        owed.push(copy)?;
    }
    Ok(())
}

/// Those of an owner's matches of which no same one was taken, in their order.
pub fn owed<E: Equalities>(
    alloc: Global,
    store: &Store,
    equalities: &E,
    instances: &Instances,
    owner: usize,
    found: &[Subst],
) -> Result<List<Subst>, AllocError>
    requires fits { E.fits equalities.now store.now }
    ensures { IfOk result (λ ms. ms ≡ filter (is_owed (E.alike equalities.now) owner instances.now.taken) found.now) }
{
    let mut owed = List::new(alloc);
    for subst in found {
        let taken = instances.is_taken(store, equalities, owner, subst)?;
        push_owed(alloc, taken, subst, &mut owed)?;
    }
    Ok(owed)
}
