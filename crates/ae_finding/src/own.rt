//! Bindings under which a term that equals its own name alone is the term of a name.
ghost use Rattle.std.specs.Prelude.{◌≡◌, ◌∷◌, [], IfOk, map};
ghost use Rattle.std.specs.List.{flat_map};
ghost use Rattle.ae_matching.specs.Generating as spec;
ghost use Rattle.ae_match.specs.Seen.{seen};
ghost use Rattle.ae_finding.specs.Nodes as inner;

use crate::bindings::{bind_exact, one, with_sorts};
use crate::names::is_head;
use ae_core::lists::List;
use ae_core::terms::{Head, Sort, Term};
use ae_matching::bindings::Bindings;
use ae_matching::sorts::{copy_bindings, match_sorts};
use ae_num::forms::Name;
use ae_store::store::Store;
use std::alloc::{AllocError, Global};

/// The bindings under which the term is that of the name, as far as its heads, sorts and variables tell.
#[cycle(own)]
#[tactic(auto, using(crate::proofs::OwnRules::own_rules))]
pub fn own(
    alloc: Global,
    store: &Store,
    term: &Term,
    name: Name,
    bindings: &Bindings,
) -> Result<List<Bindings>, AllocError>
    ensures { IfOk result (λ bs. bs ≡ spec.own (seen store.now.signature store.now.nodes) term.now name bindings.now) }
{
    match term {
        Term::Bound(variable) => bind_exact(alloc, *variable, name, bindings),
        Term::Num { .. } => one(alloc, bindings),
        Term::Fresh { .. } => one(alloc, bindings),
        Term::Apply { head, sorts, args } => own_at(
            alloc,
            store,
            *head,
            sorts.as_slice(),
            args.as_slice(),
            name,
            bindings,
        ),
    }
}

/// The same for an application.
#[cycle(own)]
fn own_at(
    alloc: Global,
    store: &Store,
    head: Head,
    sorts: &[Sort],
    args: &[Term],
    name: Name,
    bindings: &Bindings,
) -> Result<List<Bindings>, AllocError>
    ensures { IfOk result (λ bs. bs ≡ inner.own_at (seen store.now.signature store.now.nodes) head sorts.now args.now bindings.now name) }
{
    if name >= store.len() {
        return Ok(List::new(alloc));
    }
    let node = store.node(name);
    if !is_head(head, node.head) {
        return Ok(List::new(alloc));
    }
    let old = copy_bindings(alloc, bindings.sorts.as_slice())?;
    match match_sorts(alloc, sorts, node.sorts.as_slice(), old)? {
        None => Ok(List::new(alloc)),
        Some(found) => {
            let next = with_sorts(alloc, bindings, found)?;
            own_each(alloc, store, args, node.args.as_slice(), &next)
        }
    }
}

/// The same for a list of terms and as many names, one after another.
#[cycle(own)]
fn own_each(
    alloc: Global,
    store: &Store,
    args: &[Term],
    names: &[Name],
    bindings: &Bindings,
) -> Result<List<Bindings>, AllocError>
    ensures { IfOk result (λ bs. bs ≡ inner.from_each (map (spec.own (seen store.now.signature store.now.nodes)) args.now) names.now (bindings.now ∷ [])) }
{
    if args.len() != names.len() {
        return Ok(List::new(alloc));
    }
    let mut found = one(alloc, bindings)?;
    for i in 0..args.len() {
        found = own_next(alloc, store, &args[i], names[i], found.as_slice())?;
    }
    Ok(found)
}

/// The same for a term and a name, from each of these bindings.
#[cycle(own)]
fn own_next(
    alloc: Global,
    store: &Store,
    term: &Term,
    name: Name,
    bindings: &[Bindings],
) -> Result<List<Bindings>, AllocError>
    ensures { IfOk result (λ bs. bs ≡ flat_map (spec.own (seen store.now.signature store.now.nodes) term.now name) bindings.now) }
{
    let mut found = List::new(alloc);
    for one in bindings {
        let more = own(alloc, store, term, name, one)?;
        found.append(more)?;
    }
    Ok(found)
}
