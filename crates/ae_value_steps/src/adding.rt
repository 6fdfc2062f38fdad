//! One step that is added.
ghost use Rattle.std.specs.Prelude.{◌≡◌, ◌⊎◌, true, pos, [], ◌∷◌, map, IfOk, OnErr};
ghost use Rattle.ae_store.specs.Shapes.{shapes};
ghost use Rattle.ae_store.specs.Terms.{terms};
ghost use Rattle.ae_just.specs.Steps.{Fits, IsAllowedStep};
ghost use Rattle.ae_rules.specs.Built.{AreFactorsWithin, HasIntegers};
ghost use Rattle.ae_just.specs.declared.steps.Side.TheVariants as side;
ghost use Rattle.ae_state_steps.specs.ValueSteps.{times_of, value_side, name_side, value_step, zero_step, equal_step};
ghost use Rattle.ae_value_steps.specs.Stating.{AddsStep};

use ae_core::lists::List;
use ae_core::proofs::Scaled;
use ae_just::justs::Justs;
use ae_just::steps::{Rule, Side, Step, Times};
use ae_num::forms::{Lin, Name};
use ae_store::store::Store;
use std::alloc::{AllocError, Global};

/// A name with its value, and the number of the step that states it.
#[derive(Clone, Copy)]
pub struct Valued<'a> {
    pub name: Name,
    pub value: &'a Lin,
    pub step: usize,
}

/// The names of a value with their factors.
fn summands(alloc: Global, value: &Lin) -> Result<List<Times>, AllocError>
    ensures { IfOk result (λ sum. sum ≡ times_of value.now.parts) }
{
    let mut sum = List::new(alloc);
    for part in value.parts.as_slice() {
        sum.push(Times {
            factor: part.factor,
            name: part.key,
        })?;
    }
    Ok(sum)
}

/// A name with its factor alone.
fn once(alloc: Global, factor: i128, name: Name) -> Result<List<Times>, AllocError>
    ensures { IfOk result (λ sum. sum ≡ record { factor = factor; name = name } ∷ []) }
{
    let mut sum = List::new(alloc);
    sum.push(Times { factor, name })?;
    Ok(sum)
}

/// A step times a factor.
pub(crate) fn one_of(alloc: Global, factor: i128, line: usize) -> Result<List<Scaled>, AllocError>
    ensures { IfOk result (λ parts. parts ≡ record { factor = factor; line = line } ∷ []) }
{
    let mut parts = List::new(alloc);
    parts.push(Scaled { factor, line })?;
    Ok(parts)
}

/// Two steps times their factors.
pub(crate) fn two_of(
    alloc: Global,
    first: Scaled,
    second: Scaled,
) -> Result<List<Scaled>, AllocError>
    ensures { IfOk result (λ parts. parts ≡ first ∷ second ∷ []) }
{
    let mut parts = List::new(alloc);
    parts.push(first)?;
    parts.push(second)?;
    Ok(parts)
}

/// Three steps times their factors.
pub(crate) fn three_of(
    alloc: Global,
    first: Scaled,
    second: Scaled,
    third: Scaled,
) -> Result<List<Scaled>, AllocError>
    ensures { IfOk result (λ parts. parts ≡ first ∷ second ∷ third ∷ []) }
{
    let mut parts = List::new(alloc);
    parts.push(first)?;
    parts.push(second)?;
    parts.push(third)?;
    Ok(parts)
}

/// Adds the step that states the value of a name, by a combination of earlier steps.
pub(crate) fn add_value(
    alloc: Global,
    store: &Store,
    justs: &mut Justs,
    name: Name,
    value: &Lin,
    real: bool,
    times: i128,
    parts: List<Scaled>,
) -> Result<usize, AllocError>
    requires fits { Fits store.now.signature (terms (shapes store.now.nodes)) justs.old }
    requires allowed { IsAllowedStep store.now.signature (terms (shapes store.now.nodes)) justs.old (value_step real name value.now times parts) }
    requires factors { AreFactorsWithin times parts }
    requires numbers { (real ≡ true) ⊎ HasIntegers store.now.signature (terms (shapes store.now.nodes)) }
    ensures added { IfOk result (λ id. AddsStep justs.old justs.new id (name_side real name value.now) (value_side real value.now) (map (λ p. p.line) parts)) }
    ensures err { OnErr result (justs.new ≡ justs.old) }
    ensures fits { Fits store.now.signature (terms (shapes store.now.nodes)) justs.new }
{
    let sum = summands(alloc, value)?;
    let own = once(alloc, value.den, name)?;
    let step = Step {
        left: Side::Sum {
            parts: own,
            constant: 0,
            real,
        },
        right: Side::Sum {
            parts: sum,
            constant: value.constant,
            real,
        },
        rule: Rule::Lin { times, parts },
    };
    justs.add(store, step)
}

/// Adds the step that a form is 0, by a combination of earlier steps.
pub(crate) fn add_zero(
    alloc: Global,
    store: &Store,
    justs: &mut Justs,
    form: &Lin,
    real: bool,
    times: i128,
    parts: List<Scaled>,
) -> Result<usize, AllocError>
    requires fits { Fits store.now.signature (terms (shapes store.now.nodes)) justs.old }
    requires allowed { IsAllowedStep store.now.signature (terms (shapes store.now.nodes)) justs.old (zero_step real form.now times parts) }
    requires factors { AreFactorsWithin times parts }
    requires numbers { (real ≡ true) ⊎ HasIntegers store.now.signature (terms (shapes store.now.nodes)) }
    ensures added { IfOk result (λ id. AddsStep justs.old justs.new id (value_side real form.now) (side.Sum [] (pos 0) real) (map (λ p. p.line) parts)) }
    ensures err { OnErr result (justs.new ≡ justs.old) }
    ensures fits { Fits store.now.signature (terms (shapes store.now.nodes)) justs.new }
{
    let sum = summands(alloc, form)?;
    let step = Step {
        left: Side::Sum {
            parts: sum,
            constant: form.constant,
            real,
        },
        right: Side::Sum {
            parts: List::new(alloc),
            constant: 0,
            real,
        },
        rule: Rule::Lin { times, parts },
    };
    justs.add(store, step)
}

/// Adds the step that two names are equal, by a combination of earlier steps.
pub(crate) fn add_equal(
    store: &Store,
    justs: &mut Justs,
    left: Name,
    right: Name,
    times: i128,
    parts: List<Scaled>,
) -> Result<usize, AllocError>
    requires fits { Fits store.now.signature (terms (shapes store.now.nodes)) justs.old }
    requires allowed { IsAllowedStep store.now.signature (terms (shapes store.now.nodes)) justs.old (equal_step left right times parts) }
    requires factors { AreFactorsWithin times parts }
    ensures added { IfOk result (λ id. AddsStep justs.old justs.new id (side.Name left) (side.Name right) (map (λ p. p.line) parts)) }
    ensures err { OnErr result (justs.new ≡ justs.old) }
    ensures fits { Fits store.now.signature (terms (shapes store.now.nodes)) justs.new }
{
    let step = Step {
        left: Side::Name(left),
        right: Side::Name(right),
        rule: Rule::Lin { times, parts },
    };
    justs.add(store, step)
}
