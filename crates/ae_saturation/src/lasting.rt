//! Whether what was complete for the first of the assumed literals is so for all of them.
ghost use Rattle.std.specs.Prelude.{◌≡◌, ◌↔◌, ◌<◌, length, not, IsTrue};
ghost use Rattle.ae_base.specs.Relations.{Pairwise};
ghost use Rattle.ae_literals.specs.Said.{IsWithin};
ghost use Rattle.ae_state.specs.Complete.{IsComplete};
ghost use Rattle.ae_state.specs.Fitting.{FitsStore};
ghost use Rattle.ae_turns.specs.Representing.{IsTaken};
ghost use Rattle.ae_value_table.specs.Alike.{alike};
ghost use Rattle.ae_saturation.specs.Lasting.{IsCompleteFor, AreSameNodes, AreSameApplications, Denies, IsDenied, IsMet, AreMetFrom};

use ae_core::equality::{same_head, same_sorts};
use ae_literals::Said;
use ae_num::forms::Name;
use ae_state::Holding;
use ae_store::nodes::{Node, NodeHead};
use ae_store::store::Store;
use ae_unmet::said_at;
use ae_value_table::Values;

/// Whether the names of two lists are the same, one by one.
fn same_each(values: &Values, left: &[Name], right: &[Name]) -> bool
    ensures { IsTrue result ↔ Pairwise (λ m n. IsTrue (alike values.now m n)) left.now right.now }
{
    if left.len() != right.len() {
        return false;
    }
    for i in 0..left.len() {
        let same = values.same(left[i], right[i]);
        if !same {
            return false;
        }
    }
    true
}

/// Whether two nodes are of the same sorts.
fn same_sorts_of(left: &Node, right: &Node) -> bool
    ensures { IsTrue result ↔ (left.now.sorts ≡ right.now.sorts) }
{
    same_sorts(left.sorts.as_slice(), right.sorts.as_slice())
}

/// Whether the arguments of two nodes are the same.
fn same_args(values: &Values, left: &Node, right: &Node) -> bool
    ensures { IsTrue result ↔ Pairwise (λ m n. IsTrue (alike values.now m n)) left.now.args right.now.args }
{
    same_each(values, left.args.as_slice(), right.args.as_slice())
}

/// Whether two nodes apply one head at the same sorts to arguments that are the same.
fn are_same_nodes(values: &Values, left: &Node, right: &Node) -> bool
    ensures { IsTrue result ↔ AreSameNodes values.now left.now right.now }
{
    let NodeHead::Of(head) = left.head else {
        return false;
    };
    let NodeHead::Of(other) = right.head else {
        return false;
    };
    let heads = same_head(head, other);
    if !heads {
        return false;
    }
    let sorts = same_sorts_of(left, right);
    if !sorts {
        return false;
    }
    same_args(values, left, right)
}

/// Whether the nodes of two names do.
fn are_same_applications(values: &Values, store: &Store, left: Name, right: Name) -> bool
    requires left { left < length store.now.nodes }
    requires right { right < length store.now.nodes }
    ensures { IsTrue result ↔ AreSameApplications store.now.nodes values.now left right }
{
    are_same_nodes(values, store.node(left), store.node(right))
}

/// Whether a sign is the opposite of another.
fn is_opposite(sign: bool, other: bool) -> bool
    ensures { IsTrue result ↔ (sign ≡ not other) }
{
    if other { !sign } else { sign }
}

/// Whether it says the opposite of an atom.
fn denies(values: &Values, store: &Store, positive: bool, name: Name, said: Said) -> bool
    requires name { name < length store.now.nodes }
    requires said { IsWithin (length store.now.nodes) said }
    ensures { IsTrue result ↔ Denies store.now.nodes values.now positive name said }
{
    match said {
        Said::Equal { .. } => false,
        Said::Atom {
            positive: sign,
            name: other,
        } => is_opposite(sign, positive) && are_same_applications(values, store, name, other),
        Said::Other => false,
    }
}

/// Whether no assumed literal says the opposite of an atom.
fn is_undenied(held: &Holding, store: &Store, positive: bool, name: Name) -> bool
    requires taken { IsTaken held.now store.now }
    requires name { name < length store.now.nodes }
    ensures { IsTrue result ↔ ¬ IsDenied store.now held.now positive name }
{
    for place in 0..held.next {
        let said = said_at(held, place);
        let denied = denies(&held.values, store, positive, name, said);
        if denied {
            return false;
        }
    }
    true
}

/// Whether two names are the same, or whether they aren't.
fn is_answered(held: &Holding, positive: bool, left: Name, right: Name) -> bool
    ensures { IsTrue result ↔ (alike held.now.values left right ≡ positive) }
{
    let same = held.same(left, right);
    if positive { same } else { !same }
}

/// Whether what a literal says is met.
fn is_met(held: &Holding, store: &Store, said: Said) -> bool
    requires taken { IsTaken held.now store.now }
    requires said { IsWithin (length store.now.nodes) said }
    ensures { IsTrue result ↔ IsMet store.now held.now said }
{
    match said {
        Said::Equal {
            positive,
            left,
            right,
        } => is_answered(held, positive, left, right),
        Said::Atom { positive, name } => is_undenied(held, store, positive, name),
        Said::Other => true,
    }
}

/// Whether the literals from a place on are met.
fn are_met(held: &Holding, store: &Store, from: usize) -> bool
    requires taken { IsTaken held.now store.now }
    ensures { IsTrue result ↔ AreMetFrom from store.now held.now }
{
    for place in from..held.next {
        let said = said_at(held, place);
        let met = is_met(held, store, said);
        if !met {
            return false;
        }
    }
    true
}

/// Whether what is complete for the first of the assumed literals, so many, is so for all of them and all names of the store: it is where all names have
/// values, and the other literals are met. Only these are looked at, no name and no rule. It takes no memory.
pub fn still_complete(held: &Holding, store: &Store, count: usize) -> bool
    requires fits { FitsStore held.now store.now }
    requires before { IsCompleteFor count held.now }
    ensures exact { IsTrue result ↔ (IsTaken held.now store.now × AreMetFrom count store.now held.now) }
    ensures complete { IsTrue result → IsComplete held.now }
{
    let known = held.values.len();
    let names = store.len();
    if known != names {
        return false;
    }
    are_met(held, store, count)
}
