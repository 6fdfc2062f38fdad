//! What stands for all matches that are the same.
ghost use Rattle.std.specs.Prelude.{◌<◌, length, IfOk};
ghost use Rattle.ae_store.specs.Names.{AreWithin};
ghost use Rattle.ae_matches.specs.Classes as spec;

use ae_core::copies::copy_sorts;
use ae_core::lists::at;
use ae_core::terms::Sort;
use ae_num::forms::Name;
use ae_store::args::Args;
use ae_store::nodes::{NodeHead, Shape};
use ae_store::store::Store;
use ae_theory::theory::Equalities;
use ae_trigger::patterns::Subst;
use std::alloc::{AllocError, Global};

/// The least name that is the same as this one.
fn least<E: Equalities>(
    alloc: Global,
    store: &Store,
    equalities: &E,
    name: Name,
) -> Result<Name, AllocError>
    requires fits { E.fits equalities.now store.now }
    requires within { name < length store.now.nodes }
    ensures { IfOk result (spec.IsLeast (E.alike equalities.now) (length store.now.nodes) name) }
{
    let names = equalities.equals(alloc, store, name)?;
    if let Some(first) = at(names.as_slice(), 0) {
        return Ok(*first);
    }
    Ok(name)
}

/// The same for each of these names.
fn all_least<E: Equalities>(
    alloc: Global,
    store: &Store,
    equalities: &E,
    names: &[Name],
) -> Result<Args, AllocError>
    requires fits { E.fits equalities.now store.now }
    requires within { AreWithin (length store.now.nodes) names.now }
    ensures { IfOk result (spec.AreLeast (E.alike equalities.now) (length store.now.nodes) names.now) }
{
    let mut all = Args::new(alloc);
    for name in names {
        let first = least(alloc, store, equalities, *name)?;
        all.push(first)?;
    }
    Ok(all)
}

/// What stands for all matches that are the same as this one: its sorts, and the least names that are the same as its names.
pub fn class_of<E: Equalities>(
    alloc: Global,
    store: &Store,
    equalities: &E,
    subst: &Subst,
) -> Result<Shape, AllocError>
    requires fits { E.fits equalities.now store.now }
    requires within { AreWithin (length store.now.nodes) subst.now.terms }
    ensures { IfOk result (spec.IsClass (E.alike equalities.now) (length store.now.nodes) subst.now) }
{
    let args = all_least(alloc, store, equalities, subst.terms.as_slice())?;
    Ok(Shape {
        head: NodeHead::Fresh(0),
        sorts: copy_sorts(alloc, subst.sorts.as_slice())?,
        args,
        sort: Sort::Unit,
    })
}
