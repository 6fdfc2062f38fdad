//! Bindings under which a term of a pattern equals a name.
ghost use Rattle.std.specs.Prelude.{◌≡◌, ◌∷◌, [], IfOk, map};
ghost use Rattle.std.specs.List.{flat_map};
ghost use Rattle.ae_rules.specs.Matches.{is_arithmetic as is_arithmetic_term};
ghost use Rattle.ae_matching.specs.Generating as spec;
ghost use Rattle.ae_match.specs.Seen.{seen};
ghost use Rattle.ae_known.specs.Index.{HasHeads, with_head};
ghost use Rattle.ae_store.specs.declared.nodes.NodeHead.TheVariants.{Of};
ghost use Rattle.ae_finding.specs.Nodes as inner;

use crate::arithmetic::{is_ac, is_arithmetic};
use crate::bindings::{name_found, one, one_named, with_sorts};
use crate::names::{is_near, is_site, turned};
use crate::own::own;
use ae_core::lists::List;
use ae_core::problems::Signature;
use ae_core::terms::{Head, Sort, Term};
use ae_known::known::Known;
use ae_matching::bindings::Bindings;
use ae_matching::sorts::{copy_bindings, match_sorts};
use ae_num::forms::Name;
use ae_store::nodes::NodeHead;
use ae_store::store::Store;
use ae_theory::theory::Equalities;
use std::alloc::{AllocError, Global};

/// A variable is given this name or one that is the same.
pub fn bind_loose<E: Equalities>(
    alloc: Global,
    store: &Store,
    equalities: &E,
    below: u32,
    variable: usize,
    name: Name,
    bindings: &Bindings,
) -> Result<List<Bindings>, AllocError>
    ensures { IfOk result (λ bs. bs ≡ spec.bind_loose (seen store.now.signature store.now.nodes) (E.alike equalities.now) below variable name bindings.now (spec.name_found variable bindings.now.names)) }
{
    match name_found(variable, bindings.names.as_slice()) {
        None => one_named(alloc, bindings, variable, false, name),
        Some(found) => {
            if equalities.same(found, name) {
                one(alloc, bindings)
            } else {
                Ok(List::new(alloc))
            }
        }
    }
}

/// The bindings under which a term that equals its own name alone is the term of another name that is the same as this one.
pub fn own_at<E: Equalities>(
    alloc: Global,
    store: &Store,
    equalities: &E,
    below: u32,
    term: &Term,
    name: Name,
    bindings: &Bindings,
    other: Name,
) -> Result<List<Bindings>, AllocError>
    ensures { IfOk result (λ bs. bs ≡ spec.own_at (seen store.now.signature store.now.nodes) (E.alike equalities.now) below term.now name bindings.now other) }
{
    if !is_near(store, equalities, below, name, other) {
        return Ok(List::new(alloc));
    }
    own(alloc, store, term, other, bindings)
}

/// The same at the names that apply its head.
fn all_own<E: Equalities>(
    alloc: Global,
    store: &Store,
    equalities: &E,
    known: &Known,
    below: u32,
    term: &Term,
    head: Head,
    name: Name,
    bindings: &Bindings,
) -> Result<List<Bindings>, AllocError>
    ensures { IfOk result (λ bs. bs ≡ flat_map (spec.own_at (seen store.now.signature store.now.nodes) (E.alike equalities.now) below term.now name bindings.now) (with_head known.now (Of head))) }
{
    let mut found = List::new(alloc);
    for other in known.with_head(NodeHead::Of(head)) {
        let more = own_at(
            alloc, store, equalities, below, term, name, bindings, *other,
        )?;
        found.append(more)?;
    }
    Ok(found)
}

/// The bindings under which a term equals a name.
#[cycle(generate)]
#[tactic(auto, using(crate::proofs::GenerateRules::generate_rules))]
pub fn generate<E: Equalities>(
    alloc: Global,
    signature: &Signature,
    store: &Store,
    equalities: &E,
    known: &Known,
    below: u32,
    term: &Term,
    name: Name,
    bindings: &Bindings,
) -> Result<List<Bindings>, AllocError>
    requires same { signature.now ≡ store.now.signature }
    requires fits { E.fits equalities.now store.now }
    requires entered { HasHeads store.now.nodes known.now }
    ensures { IfOk result (λ bs. bs ≡ spec.generate (seen store.now.signature store.now.nodes) (E.alike equalities.now) below is_arithmetic_term term.now name bindings.now) }
{
    match term {
        Term::Bound(variable) => bind_loose(
            alloc, store, equalities, below, *variable, name, bindings,
        ),
        Term::Num { .. } => one(alloc, bindings),
        Term::Fresh { .. } => one(alloc, bindings),
        Term::Apply { head, sorts, args } => {
            let computed = is_arithmetic(alloc, term)?;
            if computed {
                return all_own(
                    alloc, store, equalities, known, below, term, *head, name, bindings,
                );
            }
            at_nodes(
                alloc,
                signature,
                store,
                equalities,
                known,
                below,
                *head,
                sorts.as_slice(),
                args.as_slice(),
                name,
                bindings,
            )
        }
    }
}

/// The same for an application, at the names that are the same as this one.
#[cycle(generate)]
fn at_nodes<E: Equalities>(
    alloc: Global,
    signature: &Signature,
    store: &Store,
    equalities: &E,
    known: &Known,
    below: u32,
    head: Head,
    sorts: &[Sort],
    args: &[Term],
    name: Name,
    bindings: &Bindings,
) -> Result<List<Bindings>, AllocError>
    requires same { signature.now ≡ store.now.signature }
    requires fits { E.fits equalities.now store.now }
    requires entered { HasHeads store.now.nodes known.now }
    ensures { IfOk result (λ bs. bs ≡ flat_map (inner.at_node (seen store.now.signature store.now.nodes) (E.alike equalities.now) below head sorts.now args.now name bindings.now) (with_head known.now (Of head))) }
{
    if name >= store.len() {
        return at_each(
            alloc,
            signature,
            store,
            equalities,
            known,
            below,
            head,
            sorts,
            args,
            name,
            bindings,
            known.with_head(NodeHead::Of(head)),
        );
    }
    let names = equalities.equals(alloc, store, name)?;
    at_each(
        alloc,
        signature,
        store,
        equalities,
        known,
        below,
        head,
        sorts,
        args,
        name,
        bindings,
        names.as_slice(),
    )
}

/// The same at each of these names.
#[cycle(generate)]
fn at_each<E: Equalities>(
    alloc: Global,
    signature: &Signature,
    store: &Store,
    equalities: &E,
    known: &Known,
    below: u32,
    head: Head,
    sorts: &[Sort],
    args: &[Term],
    name: Name,
    bindings: &Bindings,
    names: &[Name],
) -> Result<List<Bindings>, AllocError>
    requires same { signature.now ≡ store.now.signature }
    requires fits { E.fits equalities.now store.now }
    requires entered { HasHeads store.now.nodes known.now }
    ensures { IfOk result (λ bs. bs ≡ flat_map (inner.at_node (seen store.now.signature store.now.nodes) (E.alike equalities.now) below head sorts.now args.now name bindings.now) names.now) }
{
    let mut found = List::new(alloc);
    for other in names {
        let more = at_node(
            alloc, signature, store, equalities, known, below, head, sorts, args, name, bindings,
            *other,
        )?;
        found.append(more)?;
    }
    Ok(found)
}

/// The same at the node of another name that is the same as this one.
#[cycle(generate)]
#[tactic(auto, using(crate::proofs::GenerateRules::site_rules))]
pub fn at_node<E: Equalities>(
    alloc: Global,
    signature: &Signature,
    store: &Store,
    equalities: &E,
    known: &Known,
    below: u32,
    head: Head,
    sorts: &[Sort],
    args: &[Term],
    name: Name,
    bindings: &Bindings,
    other: Name,
) -> Result<List<Bindings>, AllocError>
    requires same { signature.now ≡ store.now.signature }
    requires fits { E.fits equalities.now store.now }
    requires entered { HasHeads store.now.nodes known.now }
    ensures { IfOk result (λ bs. bs ≡ inner.at_node (seen store.now.signature store.now.nodes) (E.alike equalities.now) below head sorts.now args.now name bindings.now other) }
{
    let is_site = is_site(alloc, store, equalities, below, head, name, other)?;
    if !is_site {
        return Ok(List::new(alloc));
    }
    if other >= store.len() {
        return Ok(List::new(alloc));
    }
    let node = store.node(other);
    let old = copy_bindings(alloc, bindings.sorts.as_slice())?;
    match match_sorts(alloc, sorts, node.sorts.as_slice(), old)? {
        None => Ok(List::new(alloc)),
        Some(sorted) => {
            let next = with_sorts(alloc, bindings, sorted)?;
            each_order(
                alloc,
                signature,
                store,
                equalities,
                known,
                below,
                is_ac(signature, head),
                args,
                node.args.as_slice(),
                &next,
            )
        }
    }
}

/// The same for a list of terms and as many names; for two, where it is said, in either order.
#[cycle(generate)]
#[tactic(auto, using(crate::proofs::GenerateRules::order_rules))]
fn each_order<E: Equalities>(
    alloc: Global,
    signature: &Signature,
    store: &Store,
    equalities: &E,
    known: &Known,
    below: u32,
    either: bool,
    args: &[Term],
    names: &[Name],
    bindings: &Bindings,
) -> Result<List<Bindings>, AllocError>
    requires same { signature.now ≡ store.now.signature }
    requires fits { E.fits equalities.now store.now }
    requires entered { HasHeads store.now.nodes known.now }
    ensures { IfOk result (λ bs. bs ≡ inner.each_order (seen store.now.signature store.now.nodes) (E.alike equalities.now) below args.now names.now either bindings.now) }
{
    if !either {
        return each(
            alloc, signature, store, equalities, known, below, args, names, bindings,
        );
    }
    let mut found = each(
        alloc, signature, store, equalities, known, below, args, names, bindings,
    )?;
    let other_way = turned(alloc, names)?;
    let more = each(
        alloc,
        signature,
        store,
        equalities,
        known,
        below,
        args,
        other_way.as_slice(),
        bindings,
    )?;
    found.append(more)?;
    Ok(found)
}

/// The same for a list of terms and as many names, one after another.
#[cycle(generate)]
fn each<E: Equalities>(
    alloc: Global,
    signature: &Signature,
    store: &Store,
    equalities: &E,
    known: &Known,
    below: u32,
    args: &[Term],
    names: &[Name],
    bindings: &Bindings,
) -> Result<List<Bindings>, AllocError>
    requires same { signature.now ≡ store.now.signature }
    requires fits { E.fits equalities.now store.now }
    requires entered { HasHeads store.now.nodes known.now }
    ensures { IfOk result (λ bs. bs ≡ inner.from_each (map (spec.generate (seen store.now.signature store.now.nodes) (E.alike equalities.now) below is_arithmetic_term) args.now) names.now (bindings.now ∷ [])) }
{
    if args.len() != names.len() {
        return Ok(List::new(alloc));
    }
    let mut found = one(alloc, bindings)?;
    for i in 0..args.len() {
        found = next(
            alloc,
            signature,
            store,
            equalities,
            known,
            below,
            &args[i],
            names[i],
            found.as_slice(),
        )?;
    }
    Ok(found)
}

/// The same for a term and a name, from each of these bindings.
#[cycle(generate)]
fn next<E: Equalities>(
    alloc: Global,
    signature: &Signature,
    store: &Store,
    equalities: &E,
    known: &Known,
    below: u32,
    term: &Term,
    name: Name,
    bindings: &[Bindings],
) -> Result<List<Bindings>, AllocError>
    requires same { signature.now ≡ store.now.signature }
    requires fits { E.fits equalities.now store.now }
    requires entered { HasHeads store.now.nodes known.now }
    ensures { IfOk result (λ bs. bs ≡ flat_map (spec.generate (seen store.now.signature store.now.nodes) (E.alike equalities.now) below is_arithmetic_term term.now name) bindings.now) }
{
    let mut found = List::new(alloc);
    for one in bindings {
        let more = generate(
            alloc, signature, store, equalities, known, below, term, name, one,
        )?;
        found.append(more)?;
    }
    Ok(found)
}
