//! Whether two sides are the same term.
ghost use Rattle.std.specs.Prelude.{◌≡◌, ◌<◌, ◌↔◌, List, length, IsTrue, IfSome};
ghost use Rattle.ae_core.specs.declared.terms.Term.{Term};
ghost use Rattle.ae_store.specs.Shapes.{shapes};
ghost use Rattle.ae_store.specs.Terms.{terms, named};
ghost use Rattle.ae_just.specs.Sides.{side_term, joined, many_of, sum_of, IsWithin};
ghost use Rattle.ae_just.specs.Steps.{fact_of, IsStepWithin};

use ae_core::equality::{same_head, same_sorts};
use ae_core::problems::AcSymbol;
use ae_just::steps::{Side, Step, Times};
use ae_store::args::same_args;
use ae_store::nodes::NodeHead;
use ae_store::store::Store;

/// Whether two symbols are the same.
fn same_symbol(left: &AcSymbol, right: &AcSymbol) -> bool
    ensures { IsTrue result ↔ (left.now ≡ right.now) }
{
    same_head(left.head, right.head) && same_sorts(left.sorts.as_slice(), right.sorts.as_slice())
}

/// Whether two parts are the same.
fn same_part(left: Times, right: Times) -> bool
    ensures { IsTrue result → left ≡ right }
{
    left.factor == right.factor && left.name == right.name
}

/// Whether two lists of parts are the same.
fn same_parts(left: &[Times], right: &[Times]) -> bool
    ensures { IsTrue result → left.now ≡ right.now }
{
    if left.len() != right.len() {
        return false;
    }
    for i in 0..left.len() {
        if !same_part(left[i], right[i]) {
            return false;
        }
    }
    true
}

/// The first argument of a name that applies a symbol to two names of which this one is the second.
fn first_argument(store: &Store, name: usize, symbol: &AcSymbol, second: usize) -> Option<usize>
    requires within { name < length (terms (shapes store.now.nodes)) }
    ensures within { IfSome result (λ first. first < length (terms (shapes store.now.nodes))) }
    ensures joined { IfSome result (λ first. named (terms (shapes store.now.nodes)) name
        ≡ joined symbol.now.head symbol.now.sorts (named (terms (shapes store.now.nodes)) first) (named (terms (shapes store.now.nodes)) second)) }
{
    let _names = store.len();
    let node = store.node(name);
    let NodeHead::Of(head) = node.head else {
        return None;
    };
    if !same_head(head, symbol.head)
        || !same_sorts(node.sorts.as_slice(), symbol.sorts.as_slice())
    {
        return None;
    }
    let args = node.args.as_slice();
    if args.len() != 2 {
        return None;
    }
    if args[1] != second {
        return None;
    }
    Some(args[0])
}

/// Whether a name is the application of a symbol to names, grouped to the left.
fn is_many(store: &Store, name: usize, symbol: &AcSymbol, names: &[usize]) -> bool
    requires within { name < length (terms (shapes store.now.nodes)) }
    ensures { IsTrue result → named (terms (shapes store.now.nodes)) name ≡ many_of symbol.now.head symbol.now.sorts (terms (shapes store.now.nodes)) names.now }
{
    let mut at = name;
    for i in 1..names.len() {
        let Some(first) = first_argument(store, at, symbol, names[names.len() - i]) else {
            return false;
        };
        at = first;
    }
    !names.is_empty() && names[0] == at
}

/// Whether a side is a name.
fn is_name(store: &Store, name: usize, side: &Side) -> bool
    requires within { name < length (terms (shapes store.now.nodes)) }
    ensures { IsTrue result → named (terms (shapes store.now.nodes)) name ≡ side_term (terms (shapes store.now.nodes)) side.now }
{
    match side {
        Side::Name(other) => name == *other,
        Side::Sum { .. } => false,
        Side::Many { symbol, names } => is_many(store, name, symbol, names.as_slice()),
    }
}

/// Whether a side is a sum.
fn is_sum(parts: &[Times], constant: i128, real: bool, side: &Side) -> bool
    ensures { (ts : List Term) → IsTrue result → sum_of real ts parts.now constant ≡ side_term ts side.now }
{
    match side {
        Side::Name(_) => false,
        Side::Sum {
            parts: others,
            constant: other,
            real: kind,
        } => constant == *other && real == *kind && same_parts(parts, others.as_slice()),
        Side::Many { .. } => false,
    }
}

/// Whether a side is the application of a symbol to names.
fn is_application(store: &Store, symbol: &AcSymbol, names: &[usize], side: &Side) -> bool
    requires within { IsWithin (length (terms (shapes store.now.nodes))) side.now }
    ensures { IsTrue result → many_of symbol.now.head symbol.now.sorts (terms (shapes store.now.nodes)) names.now ≡ side_term (terms (shapes store.now.nodes)) side.now }
{
    match side {
        Side::Name(name) => is_many(store, *name, symbol, names),
        Side::Sum { .. } => false,
        Side::Many {
            symbol: other,
            names: others,
        } => same_symbol(symbol, other) && same_args(names, others.as_slice()),
    }
}

/// Whether two sides are the same term. Of sums, and of applications of symbols that no name is, those with the same parts count.
pub(crate) fn same_side(store: &Store, left: &Side, right: &Side) -> bool
    requires left { IsWithin (length (terms (shapes store.now.nodes))) left.now }
    requires right { IsWithin (length (terms (shapes store.now.nodes))) right.now }
    ensures { IsTrue result → side_term (terms (shapes store.now.nodes)) left.now ≡ side_term (terms (shapes store.now.nodes)) right.now }
{
    match left {
        Side::Name(name) => is_name(store, *name, right),
        Side::Sum {
            parts,
            constant,
            real,
        } => is_sum(parts.as_slice(), *constant, *real, right),
        Side::Many { symbol, names } => is_application(store, symbol, names.as_slice(), right),
    }
}

/// Whether two steps say the same.
pub(crate) fn say_the_same(store: &Store, left: &Step, right: &Step) -> bool
    requires left { IsStepWithin (length (terms (shapes store.now.nodes))) left.now }
    requires right { IsStepWithin (length (terms (shapes store.now.nodes))) right.now }
    ensures { IsTrue result → fact_of (terms (shapes store.now.nodes)) left.now ≡ fact_of (terms (shapes store.now.nodes)) right.now }
{
    same_side(store, &left.left, &right.left) && same_side(store, &left.right, &right.right)
}
