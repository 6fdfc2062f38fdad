//! What is left to do about names of AC symbols.
ghost use Rattle.std.specs.Prelude.{◌≡◌, ◌↔◌, ℕ, ◌<◌, length, IsTrue, MatchBool, MatchOption, IfOk, IfNone, IfSome, slice_get, Some};
ghost use Rattle.ae_core.specs.declared.terms.Term.{Term};
ghost use Rattle.ae_core.specs.declared.problems.AcSymbol.{AcSymbol as AcSymbolView};
ghost use Rattle.ae_rules.specs.Linear.{form, is_number};
ghost use Rattle.ae_journal.specs.Systems.{IsJoin};
ghost use Rattle.ae_store.specs.Shapes.{shapes};
ghost use Rattle.ae_store.specs.Terms.{terms};
ghost use Rattle.ae_store.specs.declared.nodes.Node.{Node};
ghost use Rattle.ae_settled.specs.Swept.{IsJoinOf};
ghost use Rattle.ae_sweeps.specs.Given.{rep_in, entries_of, AreConstants};
ghost use Rattle.ae_sweeps.specs.Gaps.{IsGap};
ghost use Rattle.ae_sweeps.specs.Inner.Parts.{IsProduct, Joined, IsNameSwept};

use crate::gaps::{Gap, representative, same_names};
use ae_calc::flattening::is_ac;
use ae_core::copies::copy_sorts;
use ae_core::problems::{AcSymbol, Signature};
use ae_core::terms::{Head, Op};
use ae_monoid::Rules;
use ae_num::forms::Name;
use ae_store::nodes::NodeHead;
use ae_store::store::Store;
use std::alloc::{AllocError, Global};

/// An AC symbol's head, and the two names that it is applied to.
#[derive(Clone, Copy)]
struct Join {
    head: Head,
    left: Name,
    right: Name,
}

/// Whether a head is the product of a numeric sort.
fn is_product(head: Head) -> bool
    ensures { IsTrue result ↔ IsProduct head }
{
    match head {
        Head::Int(op) => op == Op::Mul,
        Head::Real(op) => op == Op::Mul,
        _ => false,
    }
}

/// Whether an application of a head to two terms is one of an AC symbol, by which of the terms are constant: a product is one where neither is.
fn is_join(signature: &Signature, head: Head, left: bool, right: bool) -> bool
    ensures { (a b : Term) → left ≡ is_number (form a) → right ≡ is_number (form b) → MatchBool result (IsJoin signature.now head a b) (IsJoin signature.now head a b → ⊥) }
{
    if !is_ac(signature, head) {
        return false;
    }
    if !is_product(head) {
        return true;
    }
    !left && !right
}

/// The AC symbol's head and the two names of a name, where it applies one.
fn join_of(signature: &Signature, store: &Store, constants: &[bool], name: Name) -> Option<Join>
    requires same { signature.now ≡ store.now.signature }
    requires name { name < length store.now.nodes }
    requires constants { AreConstants (terms (shapes store.now.nodes)) constants.now }
    ensures { MatchOption result ((p : Node) (u : AcSymbolView) (i j : ℕ) → slice_get store.now.nodes name ≡ Some p → IsJoinOf signature.now store.now.nodes p u i j → ⊥)
        (λ join. Joined signature.now store.now.nodes name join.head join.left join.right) }
{
    let _len = store.len();
    let node = store.node(name);
    let NodeHead::Of(head) = node.head else {
        return None;
    };
    let args = node.args.as_slice();
    if args.len() != 2 {
        return None;
    }
    let left = args[0];
    let right = args[1];
    if !is_join(signature, head, constants[left], constants[right]) {
        return None;
    }
    Some(Join { head, left, right })
}

/// What is left to do about a name that applies an AC symbol.
fn join_gap(
    alloc: Global,
    store: &Store,
    reps: &[Name],
    rules: &Rules,
    name: Name,
    join: Join,
) -> Result<Option<Gap>, AllocError>
    requires joined { Joined store.now.signature store.now.nodes name join.head join.left join.right }
    requires name { name < length store.now.nodes }
    ensures none { IfOk result (λ gap. IfNone gap (IsNameSwept store.now.signature store.now.nodes (rep_in reps.now) (entries_of rules.now) name)) }
    ensures some { IfOk result (λ gap. IfSome gap (λ g. IsGap store.now.signature store.now.nodes (rep_in reps.now) (entries_of rules.now) g)) }
{
    let symbol = AcSymbol {
        head: join.head,
        sorts: copy_sorts(alloc, store.node(name).sorts.as_slice())?,
    };
    let pair = vec![in alloc;
        representative(reps, join.left),
        representative(reps, join.right),
    ]?;
    let own = vec![in alloc; representative(reps, name)]?;
    let names = rules.reduce(&symbol, &pair)?;
    if !same_names(names.names.as_slice(), &own) {
        return Ok(Some(Gap::Unflat { name, names }));
    }
    Ok(None)
}

/// What is left to do about a name, where it applies an AC symbol.
fn name_gap(
    alloc: Global,
    signature: &Signature,
    store: &Store,
    constants: &[bool],
    reps: &[Name],
    rules: &Rules,
    name: Name,
) -> Result<Option<Gap>, AllocError>
    requires same { signature.now ≡ store.now.signature }
    requires constants { AreConstants (terms (shapes store.now.nodes)) constants.now }
    requires name { name < length store.now.nodes }
    ensures none { IfOk result (λ gap. IfNone gap (IsNameSwept store.now.signature store.now.nodes (rep_in reps.now) (entries_of rules.now) name)) }
    ensures some { IfOk result (λ gap. IfSome gap (λ g. IsGap store.now.signature store.now.nodes (rep_in reps.now) (entries_of rules.now) g)) }
{
    match join_of(signature, store, constants, name) {
        Some(join) => join_gap(alloc, store, reps, rules, name, join),
        None => Ok(None),
    }
}

/// What is left to do about names of AC symbols, of the first name about which anything is.
pub(crate) fn first_unflat(
    alloc: Global,
    signature: &Signature,
    store: &Store,
    constants: &[bool],
    reps: &[Name],
    rules: &Rules,
) -> Result<Option<Gap>, AllocError>
    requires same { signature.now ≡ store.now.signature }
    requires constants { AreConstants (terms (shapes store.now.nodes)) constants.now }
    ensures none { IfOk result (λ gap. IfNone gap ((n : ℕ) → n < length store.now.nodes → IsNameSwept store.now.signature store.now.nodes (rep_in reps.now) (entries_of rules.now) n)) }
    ensures some { IfOk result (λ gap. IfSome gap (λ g. IsGap store.now.signature store.now.nodes (rep_in reps.now) (entries_of rules.now) g)) }
{
    for name in 0..store.len() {
        if let Some(gap) = name_gap(alloc, signature, store, constants, reps, rules, name)? {
            return Ok(Some(gap));
        }
    }
    Ok(None)
}
