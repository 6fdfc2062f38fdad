//! Steps for multisets inside which one is put for another.
ghost use Rattle.std.specs.Prelude.{◌++◌, ◌∷◌, [], IfOk};
ghost use Rattle.ae_multiset.specs.Multisets.{IsSame};
ghost use Rattle.ae_store.specs.Growing.{IsFront};
ghost use Rattle.ae_store.specs.Shapes.{shapes};
ghost use Rattle.ae_store.specs.Terms.{terms};
ghost use Rattle.ae_just.specs.Steps.{Fits};
ghost use Rattle.ae_state_steps.specs.ManySteps.{StatesMany};
ghost use Rattle.ae_multiset_steps.specs.Equating.{RestsOnThese, IsRewriting};

use crate::adding::joined;
use crate::basic::{chained, reordered, turned};
use crate::longer::extended;
use ae_core::problems::AcSymbol;
use ae_just::justs::Justs;
use ae_num::forms::Name;
use ae_store::store::Store;
use std::alloc::{AllocError, Global};

/// The equation of a step, whose right side is put for its left side beside the rest, and what that gives, in any order.
#[derive(Clone, Copy)]
pub struct Rewriting<'a> {
    pub left: &'a [Name],
    pub right: &'a [Name],
    pub step: usize,
    pub rest: &'a [Name],
    pub result: &'a [Name],
}

/// Adds the steps that a multiset is equal to the one in which the right side of an equation is put for the left one.
pub fn rewritten(
    alloc: Global,
    justs: &mut Justs,
    store: &Store,
    symbol: &AcSymbol,
    from: &[Name],
    by: Rewriting<'_>,
) -> Result<usize, AllocError>
    requires fits { Fits store.now.signature (terms (shapes store.now.nodes)) justs.old }
    requires by { IsRewriting store.now.signature (terms (shapes store.now.nodes)) justs.old symbol.now by.left.now by.right.now by.step by.rest.now by.result.now }
    requires before { IsSame from.now (by.left.now ++ by.rest.now) }
    ensures states { IfOk result (λ id. StatesMany justs.new id symbol.now from.now by.entry.result.now) }
    ensures rests { IfOk result (λ id. RestsOnThese justs.old justs.new id (by.entry.step ∷ [])) }
    ensures kept { IsFront justs.old justs.new }
    ensures fits { Fits store.now.signature (terms (shapes store.now.nodes)) justs.new }
{
    let whole = joined(alloc, by.left, by.rest)?;
    let put = joined(alloc, by.right, by.rest)?;
    let first = reordered(alloc, justs, store, symbol, from, whole.as_slice())?;
    let second = extended(
        alloc, justs, store, symbol, by.left, by.right, by.step, by.rest,
    )?;
    let third = chained(
        alloc,
        justs,
        store,
        symbol,
        from,
        put.as_slice(),
        first,
        second,
    )?;
    let last = reordered(alloc, justs, store, symbol, put.as_slice(), by.result)?;
    chained(alloc, justs, store, symbol, from, by.result, third, last)
}

/// Adds the steps that the two results of rewriting one multiset in two ways are equal.
pub fn overlapped(
    alloc: Global,
    justs: &mut Justs,
    store: &Store,
    symbol: &AcSymbol,
    first: Rewriting<'_>,
    second: Rewriting<'_>,
) -> Result<usize, AllocError>
    requires fits { Fits store.now.signature (terms (shapes store.now.nodes)) justs.old }
    requires first { IsRewriting store.now.signature (terms (shapes store.now.nodes)) justs.old symbol.now first.left.now first.right.now first.step first.rest.now first.result.now }
    requires second { IsRewriting store.now.signature (terms (shapes store.now.nodes)) justs.old symbol.now second.left.now second.right.now second.step second.rest.now second.result.now }
    requires whole { IsSame (first.left.now ++ first.rest.now) (second.left.now ++ second.rest.now) }
    ensures states { IfOk result (λ id. StatesMany justs.new id symbol.now first.entry.result.now second.entry.result.now) }
    ensures rests { IfOk result (λ id. RestsOnThese justs.old justs.new id (first.entry.step ∷ second.entry.step ∷ [])) }
    ensures kept { IsFront justs.old justs.new }
    ensures fits { Fits store.now.signature (terms (shapes store.now.nodes)) justs.new }
{
    let whole = joined(alloc, first.left, first.rest)?;
    let one = rewritten(alloc, justs, store, symbol, whole.as_slice(), first)?;
    let other = rewritten(alloc, justs, store, symbol, whole.as_slice(), second)?;
    let back = turned(
        alloc,
        justs,
        store,
        symbol,
        first.result,
        whole.as_slice(),
        one,
    )?;
    chained(
        alloc,
        justs,
        store,
        symbol,
        first.result,
        second.result,
        back,
        other,
    )
}
