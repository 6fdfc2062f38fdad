//! Literals that are atoms.
ghost use Rattle.std.specs.Prelude.{◌≡◌, ◌↔◌, ℕ, ◌<◌, length, map, IsTrue, IfNone, IfSome, slice_get, Some};
ghost use Rattle.ae_core.specs.declared.problems.Signature.{Signature};
ghost use Rattle.ae_settled.specs.Swept.{AreCongruent};
ghost use Rattle.ae_sweeps.specs.Given.{rep_in};
ghost use Rattle.ae_literals.specs.declared.said.Said.{Said as SaidView};
ghost use Rattle.ae_literals.specs.Said.{IsWithin, AreWithin};
ghost use Rattle.ae_literals.specs.Unmet.{IsUnmet, AreCongruentNames, AreOpposed};
ghost use Rattle.ae_literals.specs.Inner.Parts.{Opposes};

use crate::said::Said;
use crate::unmet::Unmet;
use ae_core::equality::{same_head, same_sorts};
use ae_num::forms::Name;
use ae_store::nodes::{Node, NodeHead};
use ae_store::store::Store;
use ae_sweeps::representative;

/// Whether the names of two lists have the same representatives, one by one.
fn same_representatives(reps: &[Name], left: &[Name], right: &[Name]) -> bool
    ensures { IsTrue result ↔ (map (rep_in reps.now) left.now ≡ map (rep_in reps.now) right.now) }
{
    if left.len() != right.len() {
        return false;
    }
    for i in 0..left.len() {
        if representative(reps, left[i]) != representative(reps, right[i]) {
            return false;
        }
    }
    true
}

/// Whether two nodes apply one head at the same sorts to arguments of the same representatives.
fn are_congruent(reps: &[Name], left: &Node, right: &Node) -> bool
    ensures { IsTrue result ↔ AreCongruent (rep_in reps.now) left.now right.now }
{
    let NodeHead::Of(head) = left.head else {
        return false;
    };
    let NodeHead::Of(other) = right.head else {
        return false;
    };
    same_head(head, other)
        && same_sorts(left.sorts.as_slice(), right.sorts.as_slice())
        && same_representatives(reps, left.args.as_slice(), right.args.as_slice())
}

/// Whether two names do.
fn are_congruent_names(store: &Store, reps: &[Name], left: Name, right: Name) -> bool
    requires left { left < length store.now.nodes }
    requires right { right < length store.now.nodes }
    ensures { IsTrue result ↔ AreCongruentNames store.now.nodes (rep_in reps.now) left right }
{
    are_congruent(reps, store.node(left), store.node(right))
}

/// Whether it says that an atom such as that of the name is false.
fn opposes(store: &Store, reps: &[Name], name: Name, said: Said) -> bool
    requires name { name < length store.now.nodes }
    requires said { IsWithin (length store.now.nodes) said }
    ensures { IsTrue result ↔ Opposes store.now.nodes (rep_in reps.now) name said }
{
    match said {
        Said::Equal { .. } => false,
        Said::Atom {
            positive,
            name: other,
        } => { !positive && are_congruent_names(store, reps, name, other) }
        Said::Other => false,
    }
}

/// The first literal that says that an atom such as that of the name is false.
fn opposite(store: &Store, reps: &[Name], said: &[Said], name: Name) -> Option<usize>
    requires name { name < length store.now.nodes }
    requires said { AreWithin (length store.now.nodes) said.now }
    ensures none { IfNone result ((k : ℕ) (y : SaidView) → slice_get said.now k ≡ Some y → ¬ Opposes store.now.nodes (rep_in reps.now) name y) }
    ensures some { IfSome result (λ k. (y : SaidView) × (slice_get said.now k ≡ Some y) × Opposes store.now.nodes (rep_in reps.now) name y) }
{
    for at in 0..said.len() {
        if opposes(store, reps, name, said[at]) {
            return Some(at);
        }
    }
    None
}

/// The first literal that is opposed to the one at the place, where that says that an atom is true.
fn opposed_at(store: &Store, reps: &[Name], said: &[Said], at: usize) -> Option<usize>
    requires at { at < length said.now }
    requires said { AreWithin (length store.now.nodes) said.now }
    ensures none { IfNone result ((k : ℕ) → ¬ AreOpposed store.now.nodes (rep_in reps.now) said.now at k) }
    ensures some { IfSome result (λ k. AreOpposed store.now.nodes (rep_in reps.now) said.now at k) }
{
    match said[at] {
        Said::Equal { .. } => None,
        Said::Atom { positive, name } => {
            if positive {
                opposite(store, reps, said, name)
            } else {
                None
            }
        }
        Said::Other => None,
    }
}

/// The first two literals about atoms that are opposed.
pub(crate) fn first_opposed(store: &Store, reps: &[Name], said: &[Said]) -> Option<Unmet>
    requires said { AreWithin (length store.now.nodes) said.now }
    ensures none { IfNone result ((i j : ℕ) → ¬ AreOpposed store.now.nodes (rep_in reps.now) said.now i j) }
    ensures some { (sig : Signature) → IfSome result (λ u. IsUnmet sig store.now.nodes (rep_in reps.now) said.now u) }
{
    for positive in 0..said.len() {
        if let Some(negative) = opposed_at(store, reps, said, positive) {
            return Some(Unmet::Opposed { positive, negative });
        }
    }
    None
}
