//! Whether a term of a pattern equals a name, with sorts and names put for its variables.
ghost use Rattle.std.specs.Prelude.{◌≡◌, ◌&&◌, IfOk, map};
ghost use Rattle.std.specs.List.{list_any};
ghost use Rattle.ae_core.specs.Putting.{put_sort, variable_at};
ghost use Rattle.ae_rules.specs.Matches.{is_arithmetic as is_arithmetic_term};
ghost use Rattle.ae_store.specs.declared.nodes.NodeHead.TheVariants.{Of};
ghost use Rattle.ae_store.specs.Shapes.{shapes};
ghost use Rattle.ae_store.specs.Terms.{terms as terms_of, named as named_term};
ghost use Rattle.ae_matching.specs.Testing as spec;
ghost use Rattle.ae_matching.specs.Generating.{turn};
ghost use Rattle.ae_match.specs.Seen.{seen};
ghost use Rattle.ae_known.specs.Index.{HasHeads, with_head, with_node_head};
ghost use Rattle.ae_finding.specs.Nodes as inner;

use crate::arithmetic::{is_ac, is_arithmetic};
use crate::names::{is_near, is_site, turned};
use ae_core::copies::copy_term;
use ae_core::equality::same_term;
use ae_core::lists::{Boxed, List};
use ae_core::problems::Signature;
use ae_core::putting::{put_sort as sort_with, put_sorts};
use ae_core::sorts::are_sorts;
use ae_core::terms::{Head, Sort, Term};
use ae_known::known::Known;
use ae_num::forms::Name;
use ae_store::nodes::NodeHead;
use ae_store::store::Store;
use ae_theory::theory::Equalities;
use std::alloc::{AllocError, Global};

/// What is put for the variable at a distance.
fn variable(alloc: Global, distance: usize, terms: &[Term]) -> Result<Term, AllocError>
    ensures { IfOk result (λ t. t ≡ variable_at 0 terms.now distance) }
{
    if distance < terms.len() {
        return copy_term(alloc, &terms[terms.len() - 1 - distance]);
    }
    Ok(Term::Bound(distance - terms.len()))
}

/// A term with sorts put for its type variables and terms for its variables.
#[cycle(made)]
#[tactic(auto, using(crate::proofs::TestRules::made_rules))]
pub fn made(alloc: Global, term: &Term, sorts: &[Sort], terms: &[Term]) -> Result<Term, AllocError>
    ensures { IfOk result (λ t. t ≡ inner.made sorts.now terms.now term.now) }
{
    match term {
        Term::Bound(distance) => variable(alloc, *distance, terms),
        Term::Num { top, bottom, real } => Ok(Term::Num {
            top: *top,
            bottom: *bottom,
            real: *real,
        }),
        Term::Fresh { number, sort } => Ok(Term::Fresh {
            number: *number,
            sort: Boxed::new(alloc, sort_with(alloc, sort.get(), sorts)?)?,
        }),
        Term::Apply {
            head,
            sorts: own,
            args,
        } => Ok(Term::Apply {
            head: *head,
            sorts: put_sorts(alloc, own.as_slice(), sorts)?,
            args: each_made(alloc, args.as_slice(), sorts, terms)?,
        }),
    }
}

/// The same for a list of terms.
#[cycle(made)]
fn each_made(
    alloc: Global,
    all: &[Term],
    sorts: &[Sort],
    terms: &[Term],
) -> Result<List<Term>, AllocError>
    ensures { IfOk result (λ ts. ts ≡ map (inner.made sorts.now terms.now) all.now) }
{
    let mut copies = List::new(alloc);
    for term in all {
        copies.push(made(alloc, term, sorts, terms)?)?;
    }
    Ok(copies)
}

/// Whether a name is known below a number. It takes no memory.
#[tactic(auto, using(crate::proofs::TestRules::known_missing, crate::proofs::TestRules::known_at))]
pub fn is_known(store: &Store, below: u32, name: Name) -> bool
    ensures { result ≡ spec.is_known_name (seen store.now.signature store.now.nodes) below name }
{
    name < store.len() && store.node(name).generation < below
}

/// Whether a variable's name is the same as this one. It takes no memory.
fn is_variable<E: Equalities>(equalities: &E, values: &[Name], variable: usize, name: Name) -> bool
    ensures { result ≡ inner.variable_test (E.alike equalities.now) values.now variable name }
{
    variable < values.len() && equalities.same(values[values.len() - 1 - variable], name)
}

/// What a term's name applies or is; none for a variable.
#[tactic(auto, using(crate::proofs::TestRules::head_rules))]
fn node_head(term: &Term) -> Option<NodeHead>
    ensures { result ≡ inner.node_head term.now }
{
    match term {
        Term::Bound(_) => None,
        Term::Num { top, bottom, .. } => Some(NodeHead::Num {
            top: *top,
            bottom: *bottom,
        }),
        Term::Fresh { number, .. } => Some(NodeHead::Fresh(*number)),
        Term::Apply { head, .. } => Some(NodeHead::Of(*head)),
    }
}

/// Whether a term is that of a name which is known and the same as another.
pub fn is_named<E: Equalities>(
    store: &Store,
    equalities: &E,
    below: u32,
    term: &Term,
    name: Name,
    other: Name,
) -> Result<bool, AllocError>
    ensures { IfOk result (λ b. b ≡ inner.is_named (seen store.now.signature store.now.nodes) (E.alike equalities.now) below term.now name other) }
{
    if !is_near(store, equalities, below, name, other) {
        return Ok(false);
    }
    if other >= store.len() {
        return Ok(false);
    }
    let found = store.term(other)?;
    Ok(same_term(&found, term))
}

/// Whether a term is that of one of these names, which is known and the same as another.
fn is_one_of<E: Equalities>(
    store: &Store,
    equalities: &E,
    below: u32,
    term: &Term,
    name: Name,
    names: &[Name],
) -> Result<bool, AllocError>
    ensures { IfOk result (λ b. b ≡ list_any (inner.is_named (seen store.now.signature store.now.nodes) (E.alike equalities.now) below term.now name) names.now) }
{
    for other in names {
        if is_named(store, equalities, below, term, name, *other)? {
            return Ok(true);
        }
    }
    Ok(false)
}

/// Whether a term, with sorts and terms put, is that of a known name which is the same as this one.
fn own_test<E: Equalities>(
    alloc: Global,
    store: &Store,
    equalities: &E,
    known: &Known,
    below: u32,
    sorts: &[Sort],
    terms: &[Term],
    term: &Term,
    name: Name,
) -> Result<bool, AllocError>
    requires entered { HasHeads store.now.nodes known.now }
    ensures { IfOk result (λ b. b ≡ inner.own_among (seen store.now.signature store.now.nodes) (E.alike equalities.now) below sorts.now terms.now (with_node_head known.now (inner.node_head term.now)) term.now name) }
{
    match node_head(term) {
        None => Ok(false),
        Some(head) => {
            let put = made(alloc, term, sorts, terms)?;
            is_one_of(store, equalities, below, &put, name, known.with_head(head))
        }
    }
}

/// Whether a term, with sorts and names put, equals a name.
#[cycle(is_equal_at)]
#[tactic(auto, using(crate::proofs::TestRules::test_rules))]
pub fn is_equal_at<E: Equalities>(
    alloc: Global,
    signature: &Signature,
    store: &Store,
    equalities: &E,
    known: &Known,
    below: u32,
    sorts: &[Sort],
    values: &[Name],
    terms: &[Term],
    term: &Term,
    name: Name,
) -> Result<bool, AllocError>
    requires same { signature.now ≡ store.now.signature }
    requires fits { E.fits equalities.now store.now }
    requires entered { HasHeads store.now.nodes known.now }
    requires terms { terms.now ≡ map (named_term (terms_of (shapes store.now.nodes))) values.now }
    ensures { IfOk result (λ b. b ≡ spec.test (seen store.now.signature store.now.nodes) (E.alike equalities.now) below sorts.now values.now is_arithmetic_term term.now name) }
{
    let _names = store.len();
    if !is_known(store, below, name) {
        return Ok(false);
    }
    match term {
        Term::Bound(variable) => Ok(is_variable(equalities, values, *variable, name)),
        Term::Num { .. } => own_test(
            alloc, store, equalities, known, below, sorts, terms, term, name,
        ),
        Term::Fresh { .. } => own_test(
            alloc, store, equalities, known, below, sorts, terms, term, name,
        ),
        Term::Apply {
            head,
            sorts: own,
            args,
        } => {
            let computed = is_arithmetic(alloc, term)?;
            if computed {
                return own_test(
                    alloc, store, equalities, known, below, sorts, terms, term, name,
                );
            }
            let put = put_sorts(alloc, own.as_slice(), sorts)?;
            any_node(
                alloc,
                signature,
                store,
                equalities,
                known,
                below,
                sorts,
                values,
                terms,
                *head,
                put.as_slice(),
                args.as_slice(),
                name,
            )
        }
    }
}

/// Whether an application of these sorts equals a name, by one of the names that are the same.
#[cycle(is_equal_at)]
fn any_node<E: Equalities>(
    alloc: Global,
    signature: &Signature,
    store: &Store,
    equalities: &E,
    known: &Known,
    below: u32,
    sorts: &[Sort],
    values: &[Name],
    terms: &[Term],
    head: Head,
    put: &[Sort],
    args: &[Term],
    name: Name,
) -> Result<bool, AllocError>
    requires same { signature.now ≡ store.now.signature }
    requires fits { E.fits equalities.now store.now }
    requires entered { HasHeads store.now.nodes known.now }
    requires terms { terms.now ≡ map (named_term (terms_of (shapes store.now.nodes))) values.now }
    ensures { IfOk result (λ b. b ≡ list_any (inner.node_passes (seen store.now.signature store.now.nodes) (E.alike equalities.now) below sorts.now values.now head put.now args.now name) (with_head known.now (Of head))) }
{
    if name >= store.len() {
        return any_at(
            alloc,
            signature,
            store,
            equalities,
            known,
            below,
            sorts,
            values,
            terms,
            head,
            put,
            args,
            name,
            known.with_head(NodeHead::Of(head)),
        );
    }
    let names = equalities.equals(alloc, store, name)?;
    any_at(
        alloc,
        signature,
        store,
        equalities,
        known,
        below,
        sorts,
        values,
        terms,
        head,
        put,
        args,
        name,
        names.as_slice(),
    )
}

/// Whether an application of these sorts equals a name, by one of these names.
#[cycle(is_equal_at)]
fn any_at<E: Equalities>(
    alloc: Global,
    signature: &Signature,
    store: &Store,
    equalities: &E,
    known: &Known,
    below: u32,
    sorts: &[Sort],
    values: &[Name],
    terms: &[Term],
    head: Head,
    put: &[Sort],
    args: &[Term],
    name: Name,
    names: &[Name],
) -> Result<bool, AllocError>
    requires same { signature.now ≡ store.now.signature }
    requires fits { E.fits equalities.now store.now }
    requires entered { HasHeads store.now.nodes known.now }
    requires terms { terms.now ≡ map (named_term (terms_of (shapes store.now.nodes))) values.now }
    ensures { IfOk result (λ b. b ≡ list_any (inner.node_passes (seen store.now.signature store.now.nodes) (E.alike equalities.now) below sorts.now values.now head put.now args.now name) names.now) }
{
    for other in names {
        if node_passes(
            alloc, signature, store, equalities, known, below, sorts, values, terms, head, put,
            args, name, *other,
        )? {
            return Ok(true);
        }
    }
    Ok(false)
}

/// Whether an application of these sorts equals a name, by another that is the same.
#[cycle(is_equal_at)]
#[tactic(auto, using(crate::proofs::TestRules::passes_rules))]
pub fn node_passes<E: Equalities>(
    alloc: Global,
    signature: &Signature,
    store: &Store,
    equalities: &E,
    known: &Known,
    below: u32,
    sorts: &[Sort],
    values: &[Name],
    terms: &[Term],
    head: Head,
    put: &[Sort],
    args: &[Term],
    name: Name,
    other: Name,
) -> Result<bool, AllocError>
    requires same { signature.now ≡ store.now.signature }
    requires fits { E.fits equalities.now store.now }
    requires entered { HasHeads store.now.nodes known.now }
    requires terms { terms.now ≡ map (named_term (terms_of (shapes store.now.nodes))) values.now }
    ensures { IfOk result (λ b. b ≡ inner.node_passes (seen store.now.signature store.now.nodes) (E.alike equalities.now) below sorts.now values.now head put.now args.now name other) }
{
    let is_site = is_site(alloc, store, equalities, below, head, name, other)?;
    if !is_site {
        return Ok(false);
    }
    if other >= store.len() {
        return Ok(false);
    }
    let node = store.node(other);
    if !are_sorts(node.sorts.as_slice(), put) {
        return Ok(false);
    }
    either_order(
        alloc,
        signature,
        store,
        equalities,
        known,
        below,
        sorts,
        values,
        terms,
        is_ac(signature, head),
        args,
        node.args.as_slice(),
    )
}

/// Whether the terms equal these names one by one; for two, where it is said, in either order.
#[cycle(is_equal_at)]
fn either_order<E: Equalities>(
    alloc: Global,
    signature: &Signature,
    store: &Store,
    equalities: &E,
    known: &Known,
    below: u32,
    sorts: &[Sort],
    values: &[Name],
    terms: &[Term],
    either: bool,
    args: &[Term],
    names: &[Name],
) -> Result<bool, AllocError>
    requires same { signature.now ≡ store.now.signature }
    requires fits { E.fits equalities.now store.now }
    requires entered { HasHeads store.now.nodes known.now }
    requires terms { terms.now ≡ map (named_term (terms_of (shapes store.now.nodes))) values.now }
    ensures { IfOk result (λ b. b ≡ inner.either_order (seen store.now.signature store.now.nodes) (E.alike equalities.now) below sorts.now values.now either args.now names.now) }
{
    let straight = each_test(
        alloc, signature, store, equalities, known, below, sorts, values, terms, args, names,
    )?;
    if straight {
        return Ok(true);
    }
    if !either {
        return Ok(false);
    }
    let other_way = turned(alloc, names)?;
    each_test(
        alloc,
        signature,
        store,
        equalities,
        known,
        below,
        sorts,
        values,
        terms,
        args,
        other_way.as_slice(),
    )
}

/// Whether the terms equal these names one by one.
#[cycle(is_equal_at)]
fn each_test<E: Equalities>(
    alloc: Global,
    signature: &Signature,
    store: &Store,
    equalities: &E,
    known: &Known,
    below: u32,
    sorts: &[Sort],
    values: &[Name],
    terms: &[Term],
    args: &[Term],
    names: &[Name],
) -> Result<bool, AllocError>
    requires same { signature.now ≡ store.now.signature }
    requires fits { E.fits equalities.now store.now }
    requires entered { HasHeads store.now.nodes known.now }
    requires terms { terms.now ≡ map (named_term (terms_of (shapes store.now.nodes))) values.now }
    ensures { IfOk result (λ b. b ≡ spec.test_each (map (spec.test (seen store.now.signature store.now.nodes) (E.alike equalities.now) below sorts.now values.now is_arithmetic_term) args.now) names.now) }
{
    if args.len() != names.len() {
        return Ok(false);
    }
    for i in 0..args.len() {
        if !is_equal_at(
            alloc, signature, store, equalities, known, below, sorts, values, terms, &args[i],
            names[i],
        )? {
            return Ok(false);
        }
    }
    Ok(true)
}
