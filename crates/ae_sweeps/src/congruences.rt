//! What is left to do about congruent names.
ghost use Rattle.std.specs.Prelude.{◌≡◌, ◌↔◌, ◌+◌, ℕ, ◌<◌, List, length, slice_get, Option, Some, IsTrue, IfOk, IfNone, IfSome};
ghost use Rattle.std.specs.List.{AllByRecursion};
ghost use Rattle.ae_store.specs.declared.nodes.Node.{Node as NodeView};
ghost use Rattle.ae_journal.specs.declared.systems.RuleEntry.{RuleEntry};
ghost use Rattle.ae_sweeps.specs.Given.{rep_in};
ghost use Rattle.ae_sweeps.specs.Gaps.{IsGap, IsPredicate, AreAlike};
ghost use Rattle.ae_sweeps.specs.Inner.Entered.{IsCompared, AreEqual, AreEntered};

use crate::gaps::{Gap, representative, representatives};
use ae_core::problems::Signature;
use ae_core::terms::Head;
use ae_free::table::Table;
use ae_num::forms::Name;
use ae_store::nodes::{Node, NodeHead};
use ae_store::store::Store;
use std::alloc::{AllocError, Global};

/// Whether a head is that of a predicate.
fn is_predicate(signature: &Signature, head: Head) -> bool
    ensures { IsTrue result ↔ IsPredicate signature.now head }
{
    match head {
        Head::Symbol(number) => match signature.symbols.as_slice().get(number) {
            Some(entry) => entry.result.is_none(),
            None => false,
        },
        _ => false,
    }
}

/// Whether a node applies something that is no predicate.
fn is_compared(signature: &Signature, node: &Node) -> bool
    ensures { IsTrue result ↔ IsCompared signature.now node.now }
{
    match node.head {
        NodeHead::Of(head) => !is_predicate(signature, head),
        _ => false,
    }
}

/// Enters a name, and answers the least earlier one that it is congruent with.
fn enter_next(
    alloc: Global,
    store: &Store,
    reps: &[Name],
    table: &mut Table,
    name: Name,
) -> Result<Option<Name>, AllocError>
    requires name { name < length store.now.nodes }
    requires reps { AllByRecursion (λ r. r < length store.now.nodes) reps.now }
    requires entered { AreEntered store.now.signature store.now.nodes (rep_in reps.now) table.old name }
    requires compared { (p : NodeView) → slice_get store.now.nodes name ≡ Some p → IsCompared store.now.signature p }
    ensures none { IfOk result (λ o. IfNone o (AreEntered store.now.signature store.now.nodes (rep_in reps.now) table.new (name + 1))) }
    ensures some { IfOk result (λ o. IfSome o (λ m. AreAlike store.now.signature store.now.nodes (rep_in reps.now) m name)) }
    ensures same { IfOk result (λ o. IfSome o (λ m. rep_in reps.now m ≡ rep_in reps.now name → AreEntered store.now.signature store.now.nodes (rep_in reps.now) table.new (name + 1))) }
{
    let _len = store.len();
    let args = representatives(alloc, reps, store.node(name).args.as_slice())?;
    table.enter(store, name, &args)?;
    Ok(table.collide(store, name))
}

/// What is left to do about a name and the earlier ones that it is congruent with.
fn congruence_gap(
    alloc: Global,
    signature: &Signature,
    store: &Store,
    reps: &[Name],
    table: &mut Table,
    name: Name,
) -> Result<Option<Gap>, AllocError>
    requires same { signature.now ≡ store.now.signature }
    requires name { name < length store.now.nodes }
    requires reps { AllByRecursion (λ r. r < length store.now.nodes) reps.now }
    requires entered { AreEntered store.now.signature store.now.nodes (rep_in reps.now) table.old name }
    ensures none { IfOk result (λ gap. IfNone gap (AreEntered store.now.signature store.now.nodes (rep_in reps.now) table.new (name + 1))) }
    ensures some { (rules : ℕ → Option RuleEntry) → IfOk result (λ gap. IfSome gap (λ g. IsGap store.now.signature store.now.nodes (rep_in reps.now) rules g)) }
{
    if !is_compared(signature, store.node(name)) {
        return Ok(None);
    }
    let Some(first) = enter_next(alloc, store, reps, table, name)? else {
        return Ok(None);
    };
    if representative(reps, first) == representative(reps, name) {
        return Ok(None);
    }
    Ok(Some(Gap::Unequal {
        first,
        second: name,
    }))
}

/// What is left to do about congruent names, of the first name about which anything is.
pub(crate) fn first_unequal(
    alloc: Global,
    signature: &Signature,
    store: &Store,
    reps: &[Name],
) -> Result<Option<Gap>, AllocError>
    requires same { signature.now ≡ store.now.signature }
    requires reps { AllByRecursion (λ r. r < length store.now.nodes) reps.now }
    ensures none { IfOk result (λ gap. IfNone gap (AreEqual store.now.signature store.now.nodes (rep_in reps.now) (length store.now.nodes))) }
    ensures some { (rules : ℕ → Option RuleEntry) → IfOk result (λ gap. IfSome gap (λ g. IsGap store.now.signature store.now.nodes (rep_in reps.now) rules g)) }
{
    let mut table = Table::new(alloc);
    for name in 0..store.len() {
        if let Some(gap) = congruence_gap(alloc, signature, store, reps, &mut table, name)? {
            return Ok(Some(gap));
        }
    }
    Ok(None)
}
