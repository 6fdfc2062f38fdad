//! The matches of a pattern.
ghost use Rattle.std.specs.Prelude.{◌≡◌, IfOk, OnOk, length};
ghost use Rattle.indexmap.specs.IndexSet.{contains};
ghost use Rattle.ae_store.specs.Keys.{is_same};
ghost use Rattle.ae_known.specs.Index.{HasHeads};
ghost use Rattle.ae_matches.specs.Answers.{AreMatches, HasClosedConstants};
ghost use Rattle.ae_matches.specs.Candidates as spec;
ghost use Rattle.ae_matches.specs.Classes.{IsIndexed};

use crate::candidates::{candidates, subst_of};
use crate::classes::class_of;
use crate::testing::is_match;
use ae_core::lists::List;
use ae_core::problems::Signature;
use ae_known::known::Known;
use ae_matching::bindings::Bindings;
use ae_store::nodes::Shape;
use ae_store::store::Store;
use ae_theory::theory::Equalities;
use ae_trigger::patterns::{Pattern, Subst};
use indexmap::IndexSet;
use std::alloc::{AllocError, Global};

/// Keeps what is a match, unless it is the same as one that is kept.
fn keep<E: Equalities>(
    alloc: Global,
    signature: &Signature,
    store: &Store,
    equalities: &E,
    known: &Known,
    below: u32,
    pattern: &Pattern,
    classes: &mut IndexSet<Shape>,
    found: &mut List<Subst>,
    subst: Subst,
) -> Result<(), AllocError>
    requires same { signature.now ≡ store.now.signature }
    requires fits { E.fits equalities.now store.now }
    requires entered { HasHeads store.now.nodes known.now }
    requires indexed { IsIndexed (E.alike equalities.now) (length store.now.nodes) (contains is_same classes.old) found.old }
    ensures kept { OnOk result (found.new ≡ spec.with_new (spec.test_of store.now.signature store.now.nodes (E.alike equalities.now) below known.now pattern.now) (E.alike equalities.now) found.old subst) }
    ensures indexed { OnOk result (IsIndexed (E.alike equalities.now) (length store.now.nodes) (contains is_same classes.new) found.new) }
{
    let matching = is_match(
        alloc, signature, store, equalities, known, below, pattern, &subst,
    )?;
    if !matching {
        return Ok(());
    }
    let class = class_of(alloc, store, equalities, &subst)?;
    if classes.contains(&class) {
        return Ok(());
    }
    classes.insert(class)?;
    found.push(subst)?;
    Ok(())
}

/// What is kept of these candidates.
fn kept_of<E: Equalities>(
    alloc: Global,
    signature: &Signature,
    store: &Store,
    equalities: &E,
    known: &Known,
    below: u32,
    pattern: &Pattern,
    all: &[Bindings],
) -> Result<List<Subst>, AllocError>
    requires same { signature.now ≡ store.now.signature }
    requires fits { E.fits equalities.now store.now }
    requires entered { HasHeads store.now.nodes known.now }
    ensures { IfOk result (λ ms. ms ≡ spec.kept_of store.now.signature store.now.nodes (E.alike equalities.now) below known.now pattern.now all.now) }
{
    let mut found = List::new(alloc);
    let mut classes = IndexSet::new(alloc);
    for bindings in all {
        let subst = subst_of(alloc, pattern, bindings)?;
        keep(
            alloc,
            signature,
            store,
            equalities,
            known,
            below,
            pattern,
            &mut classes,
            &mut found,
            subst,
        )?;
    }
    Ok(found)
}

/// Each match of a pattern among the names of generation below a number, once up to names that are the same, and no other.
///
/// Each term of the trigger, with the sorts and the names' terms put, equals a known term, as a match asks for it: the terms
/// of names of generation below the number are known, and terms are the same where the equalities say it of their names. For
/// an associative and commutative symbol either order counts. A numeral or another term that its linear form computes equals
/// what is the same as its own name alone, so the variables inside it are given these very names. A type variable that the
/// trigger doesn't determine has the sort `unit`.
///
/// It looks only at the names that `known` has for the heads of the trigger's terms, and where an argument of such a term is a
/// variable that has a name, only at those that have an argument of its class there.
pub fn matches<E: Equalities>(
    alloc: Global,
    signature: &Signature,
    store: &Store,
    equalities: &E,
    pattern: &Pattern,
    below: u32,
    known: &Known,
) -> Result<List<Subst>, AllocError>
    requires same { signature.now ≡ store.now.signature }
    requires fits { E.fits equalities.now store.now }
    requires entered { HasHeads store.now.nodes known.now }
    requires constants { HasClosedConstants pattern.now }
    ensures matches { IfOk result (AreMatches store.now (E.alike equalities.now) below pattern.now) }
{
    let _names = store.len();
    let all = candidates(alloc, signature, store, equalities, known, below, pattern)?;
    kept_of(
        alloc,
        signature,
        store,
        equalities,
        known,
        below,
        pattern,
        all.as_slice(),
    )
}
