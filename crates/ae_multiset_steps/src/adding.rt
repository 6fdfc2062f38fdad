//! One step that is added.
ghost use Rattle.std.specs.Prelude.{◌≡◌, ◌++◌, ◌∷◌, [], IfOk};
ghost use Rattle.ae_store.specs.Growing.{IsFront};
ghost use Rattle.ae_store.specs.Shapes.{shapes};
ghost use Rattle.ae_store.specs.Terms.{terms};
ghost use Rattle.ae_just.specs.Steps.{AreRuleFactorsWithin, Fits, IsAllowedStep, IsSymbolOfNames, premises, tag_of};
ghost use Rattle.ae_just.specs.declared.steps.Side.TheVariants as side;
ghost use Rattle.ae_state_steps.specs.ManySteps.{StatesMany};
ghost use Rattle.ae_multiset_steps.specs.Equating.{RestsOnThese};

use ae_core::copies::copy_sorts;
use ae_core::lists::List;
use ae_core::problems::AcSymbol;
use ae_just::justs::Justs;
use ae_just::steps::{Rule, Side, Step};
use ae_num::forms::Name;
use ae_store::store::Store;
use std::alloc::{AllocError, Global};

/// The two sides of an equation of multisets.
#[derive(Drop)]
pub(crate) struct Sides {
    left: Side,
    right: Side,
}

/// Two multisets as sides.
fn both(
    alloc: Global,
    symbol: &AcSymbol,
    left: &[Name],
    right: &[Name],
) -> Result<Sides, AllocError>
    ensures left { IfOk result (λ sides. sides.left ≡ side.Many symbol.now left.now) }
    ensures right { IfOk result (λ sides. sides.right ≡ side.Many symbol.now right.now) }
{
    let left_names = List::from_slice(alloc, left)?;
    let right_names = List::from_slice(alloc, right)?;
    let left_sorts = copy_sorts(alloc, symbol.sorts.as_slice())?;
    let right_sorts = copy_sorts(alloc, symbol.sorts.as_slice())?;
    Ok(Sides {
        left: Side::Many {
            symbol: AcSymbol {
                head: symbol.head,
                sorts: left_sorts,
            },
            names: left_names,
        },
        right: Side::Many {
            symbol: AcSymbol {
                head: symbol.head,
                sorts: right_sorts,
            },
            names: right_names,
        },
    })
}

/// Adds a step that equates two multisets, by a rule that assumes nothing.
pub(crate) fn add_many(
    alloc: Global,
    justs: &mut Justs,
    store: &Store,
    symbol: &AcSymbol,
    left: &[Name],
    right: &[Name],
    rule: Rule,
) -> Result<usize, AllocError>
    requires fits { Fits store.now.signature (terms (shapes store.now.nodes)) justs.old }
    requires allowed { IsAllowedStep store.now.signature (terms (shapes store.now.nodes)) justs.old
        (record { left = side.Many symbol.now left.now; right = side.Many symbol.now right.now; rule = rule }) }
    requires built { IsSymbolOfNames store.now.signature (terms (shapes store.now.nodes)) symbol.now.head symbol.now.sorts }
    requires factors { AreRuleFactorsWithin rule }
    requires assumes { tag_of rule ≡ [] }
    ensures states { IfOk result (λ id. StatesMany justs.new id symbol.now left.now right.now) }
    ensures rests { IfOk result (λ id. RestsOnThese justs.old justs.new id (premises rule)) }
    ensures kept { IsFront justs.old justs.new }
    ensures fits { Fits store.now.signature (terms (shapes store.now.nodes)) justs.new }
{
    let sides = both(alloc, symbol, left, right)?;
    let step = Step {
        left: sides.left,
        right: sides.right,
        rule,
    };
    justs.add(store, step)
}

/// One number.
pub(crate) fn one(alloc: Global, number: usize) -> Result<List<usize>, AllocError>
    ensures { IfOk result (λ numbers. numbers ≡ number ∷ []) }
{
    let mut numbers = List::new(alloc);
    numbers.push(number)?;
    Ok(numbers)
}

/// Two numbers.
pub(crate) fn pair(alloc: Global, first: usize, second: usize) -> Result<List<usize>, AllocError>
    ensures { IfOk result (λ numbers. numbers ≡ first ∷ second ∷ []) }
{
    let mut numbers = List::new(alloc);
    numbers.push(first)?;
    numbers.push(second)?;
    Ok(numbers)
}

/// The names of one list, and then those of another.
pub(crate) fn joined(
    alloc: Global,
    first: &[Name],
    second: &[Name],
) -> Result<List<Name>, AllocError>
    ensures { IfOk result (λ names. names ≡ first.now ++ second.now) }
{
    let mut names = List::from_slice(alloc, first)?;
    names.append(List::from_slice(alloc, second)?)?;
    Ok(names)
}
