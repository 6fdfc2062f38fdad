//! Whether sorts and names are a match of a pattern.
ghost use Rattle.std.specs.Prelude.{◌≡◌, IfOk, map, length, slice_get};
ghost use Rattle.std.specs.List.{list_any, list_all};
ghost use Rattle.ae_store.specs.declared.nodes.NodeHead.TheVariants.{Of};
ghost use Rattle.ae_store.specs.Names.{AreWithin};
ghost use Rattle.ae_store.specs.Shapes.{shapes};
ghost use Rattle.ae_store.specs.Terms.{terms as terms_of, named as named_term};
ghost use Rattle.ae_matching.specs.Testing.{is_known_name};
ghost use Rattle.ae_match.specs.Seen.{seen};
ghost use Rattle.ae_known.specs.Index.{HasHeads, with_head};
ghost use Rattle.ae_finding.specs.Nodes as inner;
ghost use Rattle.ae_journal.specs.Triggers.{numbers_below};
ghost use Rattle.ae_rules.specs.Matches.{term_has};
ghost use Rattle.ae_matches.specs.Candidates as spec;

use ae_calc::instances::have_sorts;
use ae_core::lists::{List, at};
use ae_core::problems::Signature;
use ae_core::putting::put_sorts;
use ae_core::sorts::{are_closed_sorts, is_sort};
use ae_core::terms::{Head, Sort, Term};
use ae_finding::arithmetic::{is_ac, is_arithmetic};
use ae_finding::sites::{names_at, put_site};
use ae_finding::testing::{is_known, is_named, made, node_passes};
use ae_known::known::Known;
use ae_num::forms::Name;
use ae_store::nodes::NodeHead;
use ae_store::store::Store;
use ae_theory::theory::Equalities;
use ae_trigger::occurrences::has_type_variable;
use ae_trigger::patterns::{Pattern, Subst};
use std::alloc::{AllocError, Global};

/// Whether a term is that of one of these names, which is known.
fn any_root<E: Equalities>(
    store: &Store,
    equalities: &E,
    below: u32,
    put: &Term,
    names: &[Name],
) -> Result<bool, AllocError>
    ensures { IfOk result (λ b. b ≡ list_any (λ m. inner.is_named (seen store.now.signature store.now.nodes) (E.alike equalities.now) below put.now m m) names.now) }
{
    for name in names {
        if is_named(store, equalities, below, put, *name, *name)? {
            return Ok(true);
        }
    }
    Ok(false)
}

/// Whether a term, with sorts and terms put, is that of one of these names, which is known.
fn own_passes<E: Equalities>(
    alloc: Global,
    store: &Store,
    equalities: &E,
    below: u32,
    sorts: &[Sort],
    terms: &[Term],
    term: &Term,
    names: &[Name],
) -> Result<bool, AllocError>
    ensures { IfOk result (λ b. b ≡ list_any (spec.is_own_root (seen store.now.signature store.now.nodes) (E.alike equalities.now) below sorts.now terms.now term.now) names.now) }
{
    let put = made(alloc, term, sorts, terms)?;
    any_root(store, equalities, below, &put, names)
}

/// Whether an application of these sorts equals one of these names, by its own node.
fn node_roots_pass<E: Equalities>(
    alloc: Global,
    signature: &Signature,
    store: &Store,
    equalities: &E,
    known: &Known,
    below: u32,
    sorts: &[Sort],
    values: &[Name],
    terms: &[Term],
    head: Head,
    put: &[Sort],
    args: &[Term],
    names: &[Name],
) -> Result<bool, AllocError>
    requires same { signature.now ≡ store.now.signature }
    requires fits { E.fits equalities.now store.now }
    requires entered { HasHeads store.now.nodes known.now }
    requires terms { terms.now ≡ map (named_term (terms_of (shapes store.now.nodes))) values.now }
    ensures { IfOk result (λ b. b ≡ list_any (λ m. inner.node_passes (seen store.now.signature store.now.nodes) (E.alike equalities.now) below sorts.now values.now head put.now args.now m m) names.now) }
{
    for name in names {
        if node_passes(
            alloc, signature, store, equalities, known, below, sorts, values, terms, head, put,
            args, *name, *name,
        )? {
            return Ok(true);
        }
    }
    Ok(false)
}

/// Whether an application of these sorts equals a known name of its head. Where one of its arguments is a variable, it is
/// looked for at the names that the index has for this argument, else at all of its head.
fn application_passes<E: Equalities>(
    alloc: Global,
    signature: &Signature,
    store: &Store,
    equalities: &E,
    known: &Known,
    below: u32,
    sorts: &[Sort],
    values: &[Name],
    terms: &[Term],
    head: Head,
    put: &[Sort],
    args: &[Term],
) -> Result<bool, AllocError>
    requires same { signature.now ≡ store.now.signature }
    requires fits { E.fits equalities.now store.now }
    requires entered { HasHeads store.now.nodes known.now }
    requires terms { terms.now ≡ map (named_term (terms_of (shapes store.now.nodes))) values.now }
    ensures { IfOk result (λ b. b ≡ list_any (λ m. inner.node_passes (seen store.now.signature store.now.nodes) (E.alike equalities.now) below sorts.now values.now head put.now args.now m m) (with_head known.now (Of head))) }
{
    match put_site(args, values, store.len()) {
        None => node_roots_pass(
            alloc,
            signature,
            store,
            equalities,
            known,
            below,
            sorts,
            values,
            terms,
            head,
            put,
            args,
            known.with_head(NodeHead::Of(head)),
        ),
        Some(site) => {
            let either = is_ac(signature, head);
            let names = names_at(alloc, store, equalities, known, head, either, site)?;
            node_roots_pass(
                alloc,
                signature,
                store,
                equalities,
                known,
                below,
                sorts,
                values,
                terms,
                head,
                put,
                args,
                names.as_slice(),
            )
        }
    }
}

/// Whether a term, with sorts and names put, equals some known name.
#[tactic(auto, using(crate::proofs::CandidateRules::passes_rules))]
fn passes<E: Equalities>(
    alloc: Global,
    signature: &Signature,
    store: &Store,
    equalities: &E,
    known: &Known,
    below: u32,
    sorts: &[Sort],
    values: &[Name],
    terms: &[Term],
    term: &Term,
) -> Result<bool, AllocError>
    requires same { signature.now ≡ store.now.signature }
    requires fits { E.fits equalities.now store.now }
    requires entered { HasHeads store.now.nodes known.now }
    requires terms { terms.now ≡ map (named_term (terms_of (shapes store.now.nodes))) values.now }
    ensures { IfOk result (λ b. b ≡ spec.passes (seen store.now.signature store.now.nodes) (E.alike equalities.now) below known.now sorts.now values.now terms.now term.now) }
{
    match term {
        Term::Bound(variable) => Ok(*variable < values.len()),
        Term::Num { top, bottom, .. } => {
            let head = NodeHead::Num {
                top: *top,
                bottom: *bottom,
            };
            own_passes(
                alloc,
                store,
                equalities,
                below,
                sorts,
                terms,
                term,
                known.with_head(head),
            )
        }
        Term::Fresh { number, .. } => {
            let head = NodeHead::Fresh(*number);
            own_passes(
                alloc,
                store,
                equalities,
                below,
                sorts,
                terms,
                term,
                known.with_head(head),
            )
        }
        Term::Apply {
            head,
            sorts: own,
            args,
        } => {
            let computed = is_arithmetic(alloc, term)?;
            if computed {
                return own_passes(
                    alloc,
                    store,
                    equalities,
                    below,
                    sorts,
                    terms,
                    term,
                    known.with_head(NodeHead::Of(*head)),
                );
            }
            let put = put_sorts(alloc, own.as_slice(), sorts)?;
            application_passes(
                alloc,
                signature,
                store,
                equalities,
                known,
                below,
                sorts,
                values,
                terms,
                *head,
                put.as_slice(),
                args.as_slice(),
            )
        }
    }
}

/// Whether each of the terms does.
fn all_pass<E: Equalities>(
    alloc: Global,
    signature: &Signature,
    store: &Store,
    equalities: &E,
    known: &Known,
    below: u32,
    sorts: &[Sort],
    values: &[Name],
    terms: &[Term],
    trigger: &[Term],
) -> Result<bool, AllocError>
    requires same { signature.now ≡ store.now.signature }
    requires fits { E.fits equalities.now store.now }
    requires entered { HasHeads store.now.nodes known.now }
    requires terms { terms.now ≡ map (named_term (terms_of (shapes store.now.nodes))) values.now }
    ensures { IfOk result (λ b. b ≡ list_all (spec.passes (seen store.now.signature store.now.nodes) (E.alike equalities.now) below known.now sorts.now values.now terms.now) trigger.now) }
{
    for term in trigger {
        if !passes(
            alloc, signature, store, equalities, known, below, sorts, values, terms, term,
        )? {
            return Ok(false);
        }
    }
    Ok(true)
}

/// Whether each of the names is known.
fn are_known(store: &Store, below: u32, names: &[Name]) -> bool
    ensures { result ≡ list_all (is_known_name (seen store.now.signature store.now.nodes) below) names.now }
{
    for name in names {
        if !is_known(store, below, *name) {
            return false;
        }
    }
    true
}

/// Whether a type variable occurs in some of the terms.
fn occurs(number: usize, terms: &[Term]) -> bool
    ensures { result ≡ list_any (term_has number) terms.now }
{
    for term in terms {
        if has_type_variable(number, term) {
            return true;
        }
    }
    false
}

/// Whether the sort at a place is `unit`, or there is none.
fn is_unit(sorts: &[Sort], place: usize) -> bool
    ensures { result ≡ spec.is_unit_at (slice_get sorts.now place) }
{
    match at(sorts, place) {
        None => true,
        Some(sort) => is_sort(sort, &Sort::Unit),
    }
}

/// Whether a type variable occurs in the terms, or has the sort `unit`.
fn is_determined(terms: &[Term], sorts: &[Sort], number: usize) -> bool
    ensures { result ≡ spec.is_determined terms.now sorts.now number }
{
    occurs(number, terms) || is_unit(sorts, number)
}

/// Whether each of so many does.
#[tactic(auto, using(crate::proofs::CandidateRules::all_numbers))]
fn are_determined(terms: &[Term], sorts: &[Sort], sort_vars: usize) -> bool
    ensures { result ≡ list_all (spec.is_determined terms.now sorts.now) (numbers_below sort_vars) }
{
    for number in 0..sort_vars {
        if !is_determined(terms, sorts, number) {
            return false;
        }
    }
    true
}

/// The terms of names.
#[tactic(auto, using(ae_store::proofs::StoreLaws::name_term))]
fn terms_at(alloc: Global, store: &Store, names: &[Name]) -> Result<List<Term>, AllocError>
    requires within { AreWithin (length store.now.nodes) names.now }
    ensures { IfOk result (λ ts. ts ≡ map (named_term (terms_of (shapes store.now.nodes))) names.now) }
{
    let mut terms = List::new(alloc);
    for name in names {
        terms.push(store.term(*name)?)?;
    }
    Ok(terms)
}

/// Whether sorts and known names are a match of a pattern.
fn known_match<E: Equalities>(
    alloc: Global,
    signature: &Signature,
    store: &Store,
    equalities: &E,
    known: &Known,
    below: u32,
    pattern: &Pattern,
    subst: &Subst,
    terms: &[Term],
) -> Result<bool, AllocError>
    requires same { signature.now ≡ store.now.signature }
    requires fits { E.fits equalities.now store.now }
    requires entered { HasHeads store.now.nodes known.now }
    requires terms { terms.now ≡ map (named_term (terms_of (shapes store.now.nodes))) subst.now.terms }
    ensures { IfOk result (λ b. b ≡ spec.sorted_match signature.now (seen store.now.signature store.now.nodes) (E.alike equalities.now) below known.now pattern.now terms.now subst.now) }
{
    let sorts = put_sorts(alloc, pattern.vars.as_slice(), subst.sorts.as_slice())?;
    if !have_sorts(alloc, signature, terms, sorts.as_slice())? {
        return Ok(false);
    }
    all_pass(
        alloc,
        signature,
        store,
        equalities,
        known,
        below,
        subst.sorts.as_slice(),
        subst.terms.as_slice(),
        terms,
        pattern.terms.as_slice(),
    )
}

/// Whether sorts and names are a match of a pattern.
pub fn is_match<E: Equalities>(
    alloc: Global,
    signature: &Signature,
    store: &Store,
    equalities: &E,
    known: &Known,
    below: u32,
    pattern: &Pattern,
    subst: &Subst,
) -> Result<bool, AllocError>
    requires same { signature.now ≡ store.now.signature }
    requires fits { E.fits equalities.now store.now }
    requires entered { HasHeads store.now.nodes known.now }
    ensures { IfOk result (λ b. b ≡ spec.is_match signature.now (seen store.now.signature store.now.nodes) (E.alike equalities.now) below known.now pattern.now (map (named_term (terms_of (shapes store.now.nodes))) subst.now.terms) subst.now) }
{
    if subst.sorts.len() != pattern.sort_vars {
        return Ok(false);
    }
    if !are_closed_sorts(signature, subst.sorts.as_slice()) {
        return Ok(false);
    }
    if !are_determined(
        pattern.terms.as_slice(),
        subst.sorts.as_slice(),
        pattern.sort_vars,
    ) {
        return Ok(false);
    }
    if !are_known(store, below, subst.terms.as_slice()) {
        return Ok(false);
    }
    let terms = terms_at(alloc, store, subst.terms.as_slice())?;
    known_match(
        alloc,
        signature,
        store,
        equalities,
        known,
        below,
        pattern,
        subst,
        terms.as_slice(),
    )
}
