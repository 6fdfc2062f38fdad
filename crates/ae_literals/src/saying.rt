//! What a literal says of the names of a store.
ghost use Rattle.std.specs.Prelude.{◌≡◌, ◌↔◌, ◌<◌, ℕ, length, map, IsTrue, IfOk, IfNone, IfSome, slice_get, Some};
ghost use Rattle.std.specs.List.{AllByRecursion};
ghost use Rattle.ae_core.specs.Sorts as spec;
ghost use Rattle.ae_core.specs.declared.terms.Sort.{Sort as SortView};
ghost use Rattle.ae_core.specs.declared.formulas.Formula.{Eq, Pred as PredView};
ghost use Rattle.ae_store.specs.Terms.{named};
ghost use Rattle.ae_theory.specs.Names.{terms_in};
ghost use Rattle.ae_literals.specs.Said.{Says, IsAtomOf};

use crate::said::Said;
use ae_core::equality::{same_sort, same_sorts, same_term};
use ae_core::formulas::{Formula, Lit};
use ae_core::problems::Signature;
use ae_core::sorts::sort_of;
use ae_core::terms::{Head, Sort, Term};
use ae_num::forms::Name;
use ae_store::nodes::NodeHead;
use ae_store::store::Store;
use std::alloc::{AllocError, Global};

/// The name of a term, in time linear in the store; `None` exactly where it has none.
fn name_of(store: &Store, term: &Term) -> Result<Option<Name>, AllocError>
    ensures some { IfOk result (λ name. IfSome name (λ n. slice_get (terms_in store.now) n ≡ Some term.now)) }
    ensures none { IfOk result (λ name. IfNone name ((n : ℕ) → slice_get (terms_in store.now) n ≡ Some term.now → ⊥)) }
{
    for name in 0..store.len() {
        if same_term(&store.term(name)?, term) {
            return Ok(Some(name));
        }
    }
    Ok(None)
}

/// Whether two terms are well sorted and of one sort.
fn are_of_one_sort(
    alloc: Global,
    signature: &Signature,
    left: &Term,
    right: &Term,
) -> Result<bool, AllocError>
    ensures { IfOk result (λ one. IsTrue one ↔ ((s : SortView) × (spec.sort_of signature.now left.now ≡ Some s) × (spec.sort_of signature.now right.now ≡ Some s))) }
{
    let Some(sort) = sort_of(alloc, signature, left)? else {
        return Ok(false);
    };
    let Some(other) = sort_of(alloc, signature, right)? else {
        return Ok(false);
    };
    Ok(same_sort(&sort, &other))
}

/// What an equation says, or its negation.
fn of_equation(
    alloc: Global,
    signature: &Signature,
    store: &Store,
    positive: bool,
    left: &Term,
    right: &Term,
) -> Result<Said, AllocError>
    requires same { signature.now ≡ store.now.signature }
    ensures { IfOk result (λ said. Says store.now (record { positive = positive; formula = Eq left.now right.now }) said) }
{
    if !are_of_one_sort(alloc, signature, left, right)? {
        return Ok(Said::Other);
    }
    let Some(first) = name_of(store, left)? else {
        return Ok(Said::Other);
    };
    let Some(second) = name_of(store, right)? else {
        return Ok(Said::Other);
    };
    Ok(Said::Equal {
        positive,
        left: first,
        right: second,
    })
}

/// Whether these names are those of the terms, one by one.
fn are_names_of(store: &Store, names: &[Name], terms: &[Term]) -> Result<bool, AllocError>
    requires { AllByRecursion (λ n. n < length store.now.nodes) names.now }
    ensures { IfOk result (λ are. IsTrue are ↔ (map (named (terms_in store.now)) names.now ≡ terms.now)) }
{
    if names.len() != terms.len() {
        return Ok(false);
    }
    for i in 0..names.len() {
        if !same_term(&store.term(names[i])?, &terms[i]) {
            return Ok(false);
        }
    }
    Ok(true)
}

/// Whether what a node applies, or is, is this.
fn same_node_head(left: NodeHead, right: NodeHead) -> bool
    ensures { IsTrue result ↔ (left ≡ right) }
{
    left == right
}

/// Whether a name is that of a predicate's application.
fn is_atom(
    store: &Store,
    name: Name,
    predicate: usize,
    sorts: &[Sort],
    args: &[Term],
) -> Result<bool, AllocError>
    requires { name < length store.now.nodes }
    ensures { IfOk result (λ is. IsTrue is ↔ IsAtomOf store.now name predicate sorts.now args.now) }
{
    let _len = store.len();
    let node = store.node(name);
    if !same_node_head(node.head, NodeHead::Of(Head::Symbol(predicate))) {
        return Ok(false);
    }
    if !same_sorts(node.sorts.as_slice(), sorts) {
        return Ok(false);
    }
    are_names_of(store, node.args.as_slice(), args)
}

/// What a predicate's application says, or its negation.
fn of_atom(
    store: &Store,
    positive: bool,
    predicate: usize,
    sorts: &[Sort],
    args: &[Term],
) -> Result<Said, AllocError>
    ensures { IfOk result (λ said. Says store.now (record { positive = positive; formula = PredView predicate sorts.now args.now }) said) }
{
    for name in 0..store.len() {
        if is_atom(store, name, predicate, sorts, args)? {
            return Ok(Said::Atom { positive, name });
        }
    }
    Ok(Said::Other)
}

/// What a literal says of the names of a store, in time linear in the store. An equation of terms of one sort that have names says that these are
/// equal, a predicate's application that has a name says that it is true, and their negations the opposite; any other literal says nothing.
pub fn said_of(
    alloc: Global,
    signature: &Signature,
    store: &Store,
    lit: &Lit,
) -> Result<Said, AllocError>
    requires same { signature.now ≡ store.now.signature }
    ensures { IfOk result (λ said. Says store.now lit.now said) }
{
    match &lit.formula {
        Formula::Eq { left, right } => {
            of_equation(alloc, signature, store, lit.positive, left, right)
        }
        Formula::Pred {
            symbol,
            sorts,
            args,
        } => of_atom(
            store,
            lit.positive,
            *symbol,
            sorts.as_slice(),
            args.as_slice(),
        ),
        _ => Ok(Said::Other),
    }
}
