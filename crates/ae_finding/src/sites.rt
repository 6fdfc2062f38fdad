//! Names at which an application may be found, by an argument whose name is known.
ghost use Rattle.std.specs.Prelude.{◌≡◌, ◌<◌, ◌++◌, reverse, length, slice_get, Some, IfOk, OnOk};
ghost use Rattle.std.specs.List.{flat_map};
ghost use Rattle.std.specs.Option.{IfSome};
ghost use Rattle.ae_matching.specs.Generating as generating;
ghost use Rattle.ae_known.specs.Index.{HasHeads};
ghost use Rattle.ae_finding.specs.Sites as spec;

use crate::bindings::name_found;
use ae_core::lists::List;
use ae_core::terms::{Head, Term};
use ae_known::known::Known;
use ae_matching::bindings::NameBinding;
use ae_num::forms::Name;
use ae_store::nodes::NodeHead;
use ae_store::store::Store;
use ae_theory::theory::Equalities;
use std::alloc::{AllocError, Global};

/// A place of an application, and the name that the argument there is to be the same as.
#[derive(Clone, Copy, Debug, PartialEq, Eq)]
pub struct Site {
    pub place: usize,
    pub name: Name,
}

/// The name that bindings have for a variable; none for another term.
#[tactic(auto, using(crate::proofs::SiteLaws::value_rules))]
fn bound_name(term: &Term, names: &[NameBinding]) -> Option<Name>
    ensures { result ≡ spec.value_of (λ i. generating.name_found i names.now) term.now }
{
    match term {
        Term::Bound(variable) => name_found(*variable, names),
        Term::Num { .. } => None,
        Term::Fresh { .. } => None,
        Term::Apply { .. } => None,
    }
}

/// The name that is put for a variable, where there is one; none for another term.
#[tactic(auto, using(crate::proofs::SiteLaws::value_rules, crate::proofs::SiteLaws::back_rules))]
fn put_name(term: &Term, values: &[Name]) -> Option<Name>
    ensures { result ≡ spec.value_of (λ i. slice_get (reverse values.now) i) term.now }
{
    match term {
        Term::Bound(variable) => {
            if *variable < values.len() {
                Some(values[values.len() - 1 - *variable])
            } else {
                None
            }
        }
        Term::Num { .. } => None,
        Term::Fresh { .. } => None,
        Term::Apply { .. } => None,
    }
}

/// The first place at which a variable stands that has a name below this count.
pub fn bound_site(args: &[Term], names: &[NameBinding], count: usize) -> Option<Site>
    ensures { IfSome result (spec.IsSite (λ i. generating.name_found i names.now) args.now count) }
{
    for place in 0..args.len() {
        if let Some(name) = bound_name(&args[place], names) {
            if name < count {
                return Some(Site { place, name });
            }
        }
    }
    None
}

/// The first place at which a variable stands for which a name below this count is put.
pub fn put_site(args: &[Term], values: &[Name], count: usize) -> Option<Site>
    ensures { IfSome result (spec.IsSite (λ i. slice_get (reverse values.now) i) args.now count) }
{
    for place in 0..args.len() {
        if let Some(name) = put_name(&args[place], values) {
            if name < count {
                return Some(Site { place, name });
            }
        }
    }
    None
}

/// The other of the first two places.
fn other_place(place: usize) -> usize
    ensures { result ≡ spec.other_place place }
{
    if place == 0 { 1 } else { 0 }
}

/// Puts the names behind others that may have the argument at the place, or, in either order, at the other of two.
fn push_names(
    alloc: Global,
    known: &Known,
    head: Head,
    either: bool,
    place: usize,
    argument: Name,
    found: &mut List<Name>,
) -> Result<(), AllocError>
    ensures { OnOk result (found.new ≡ found.old ++ spec.at_argument known.now head either place argument) }
{
    let names = known.with_argument(NodeHead::Of(head), place, argument)?;
    found.append(List::from_slice(alloc, names)?)?;
    if either {
        let more = known.with_argument(NodeHead::Of(head), other_place(place), argument)?;
        found.append(List::from_slice(alloc, more)?)?;
    }
    Ok(())
}

/// The same for each of these arguments.
fn names_with(
    alloc: Global,
    known: &Known,
    head: Head,
    either: bool,
    place: usize,
    arguments: &[Name],
) -> Result<List<Name>, AllocError>
    ensures { IfOk result (λ ns. ns ≡ flat_map (spec.at_argument known.now head either place) arguments.now) }
{
    let mut found = List::new(alloc);
    for argument in arguments {
        push_names(alloc, known, head, either, place, *argument, &mut found)?;
    }
    Ok(found)
}

/// Names among which are those that apply the head and whose argument at the site's place, or, in either order, at the other
/// of two, is the same as the site's name. It asks the index once for each name that is the same as this one.
pub fn names_at<E: Equalities>(
    alloc: Global,
    store: &Store,
    equalities: &E,
    known: &Known,
    head: Head,
    either: bool,
    site: Site,
) -> Result<List<Name>, AllocError>
    requires fits { E.fits equalities.now store.now }
    requires entered { HasHeads store.now.nodes known.now }
    requires within { site.name < length store.now.nodes }
    ensures { IfOk result (spec.HasNames store.now.nodes (E.alike equalities.now) head either site) }
{
    let _names = store.len();
    let arguments = equalities.equals(alloc, store, site.name)?;
    names_with(alloc, known, head, either, site.place, arguments.as_slice())
}
