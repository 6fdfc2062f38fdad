//! The larger side of an equation.
ghost use Rattle.std.specs.Prelude.{◌≡◌, ◌⊎◌, ◌∷◌, [], false, IsTrue, IfOk};
ghost use Rattle.std.specs.List.Sorted.{IsNonDecreasing};
ghost use Rattle.ae_just.specs.Steps.{Fits};
ghost use Rattle.ae_multiset.specs.Multisets.{IsLess};
ghost use Rattle.ae_multiset_steps.specs.Equating.{RestsOnThese};
ghost use Rattle.ae_state_steps.specs.ManySteps.{StatesMany};
ghost use Rattle.ae_store.specs.Growing.{IsFront};
ghost use Rattle.ae_store.specs.Shapes.{shapes};
ghost use Rattle.ae_store.specs.Terms.{terms};

use ae_core::copies::copy_sorts;
use ae_core::problems::AcSymbol;
use ae_equation_turns::ReducedEquation;
use ae_equations::Waiting;
use ae_just::justs::Justs;
use ae_multiset::compare;
use ae_multiset_steps::turned;
use ae_num::forms::Name;
use ae_store::store::Store;
use std::alloc::{AllocError, Global};
use std::cmp::Ordering;

/// An equal symbol.
pub(crate) fn copy_symbol(alloc: Global, symbol: &AcSymbol) -> Result<AcSymbol, AllocError>
    ensures { IfOk result (λ copy. copy ≡ symbol.now) }
{
    Ok(AcSymbol {
        head: symbol.head,
        sorts: copy_sorts(alloc, symbol.sorts.as_slice())?,
    })
}

/// Whether the first of two multisets is the smaller one.
fn is_smaller(left: &[Name], right: &[Name]) -> bool
    requires left { IsNonDecreasing left.now }
    requires right { IsNonDecreasing right.now }
    ensures yes { IsTrue result → IsLess left.now right.now }
    ensures no { result ≡ false → (left.now ≡ right.now) ⊎ IsLess right.now left.now }
{
    match compare(left, right) {
        Ordering::Less => true,
        Ordering::Equal => false,
        Ordering::Greater => false,
    }
}

/// The equation of two multisets, with the larger one on the left. A step is added where they have to change places.
pub(crate) fn with_larger_left(
    alloc: Global,
    justs: &mut Justs,
    store: &Store,
    symbol: &AcSymbol,
    sides: ReducedEquation,
) -> Result<Waiting, AllocError>
    requires fits { Fits store.now.signature (terms (shapes store.now.nodes)) justs.old }
    requires left { IsNonDecreasing sides.left }
    requires right { IsNonDecreasing sides.right }
    requires states { StatesMany justs.old sides.step symbol.now sides.left sides.right }
    ensures symbol { IfOk result (λ e. e.symbol ≡ symbol.now) }
    ensures sides { IfOk result (λ e. ((e.left ≡ sides.left) × (e.right ≡ sides.right)) ⊎ ((e.left ≡ sides.right) × (e.right ≡ sides.left))) }
    ensures falls { IfOk result (λ e. (e.left ≡ e.right) ⊎ IsLess e.right e.left) }
    ensures states { IfOk result (λ e. StatesMany justs.new e.step symbol.now e.left e.right) }
    ensures rests { IfOk result (λ e. RestsOnThese justs.old justs.new e.step (sides.step ∷ [])) }
    ensures kept { IsFront justs.old justs.new }
    ensures fits { Fits store.now.signature (terms (shapes store.now.nodes)) justs.new }
{
    let copy = copy_symbol(alloc, symbol)?;
    let left = sides.left.as_slice();
    let right = sides.right.as_slice();
    if is_smaller(left, right) {
        let step = turned(alloc, justs, store, symbol, right, left, sides.step)?;
        return Ok(Waiting {
            symbol: copy,
            left: sides.right,
            right: sides.left,
            step,
        });
    }
    Ok(Waiting {
        symbol: copy,
        left: sides.left,
        right: sides.right,
        step: sides.step,
    })
}
