//! The steps that are kept.
ghost use Rattle.std.specs.Prelude.{◌≡◌, ◌<◌, length, IfOk, IfSome};
ghost use Rattle.ae_store.specs.Shapes.{shapes};
ghost use Rattle.ae_store.specs.Terms.{terms};
ghost use Rattle.ae_just.specs.Needed.{IsRising};
ghost use Rattle.ae_just.specs.Steps.{IsStepWithin, Fits};
ghost use Rattle.ae_short_derivations.specs.Shortened.{SaysAs, IsShort};
ghost use Rattle.ae_short_derivations.specs.Inner.Keeping.{IsKeepable, MayStand, IsKept};

use crate::copies::copy_side;
use crate::renaming::{Places, renamed_rule};
use crate::sides::{same_side, say_the_same};
use crate::slots::slot_of;
use ae_core::lists::List;
use ae_just::justs::Justs;
use ae_just::needed::needed;
use ae_just::steps::{Rule, Step};
use ae_store::store::Store;
use std::alloc::{AllocError, Global};
use std::collections::HashMap;

/// Steps, and the number of one of them.
#[derive(Drop)]
pub struct Short {
    pub justs: Justs,
    pub step: usize,
}

/// The kept step of a number, if it says what another step says.
fn said_at(store: &Store, kept: &Justs, number: usize, step: &Step) -> Option<usize>
    requires fits { Fits store.now.signature (terms (shapes store.now.nodes)) kept.now }
    requires within { IsStepWithin (length (terms (shapes store.now.nodes))) step.now }
    ensures { IfSome result (λ n. SaysAs (terms (shapes store.now.nodes)) kept.now n step.now) }
{
    let steps = kept.steps();
    if number < steps.len() && say_the_same(store, &steps[number], step) {
        return Some(number);
    }
    None
}

/// A kept step that says what another step says.
fn said(
    store: &Store,
    kept: &Justs,
    seen: &HashMap<usize, usize>,
    slot: usize,
    step: &Step,
) -> Option<usize>
    requires fits { Fits store.now.signature (terms (shapes store.now.nodes)) kept.now }
    requires within { IsStepWithin (length (terms (shapes store.now.nodes))) step.now }
    ensures { IfSome result (λ n. SaysAs (terms (shapes store.now.nodes)) kept.now n step.now) }
{
    match seen.get(&slot) {
        Some(number) => said_at(store, kept, *number, step),
        None => None,
    }
}

/// Why a step may stand behind the kept ones.
fn rule_of(
    alloc: Global,
    store: &Store,
    places: Places<'_>,
    step: &Step,
) -> Result<Rule, AllocError>
    requires rising { IsRising places.needed.now }
    requires within { IsStepWithin (length (terms (shapes store.now.nodes))) step.now }
    ensures { IfOk result (λ rule. MayStand (terms (shapes store.now.nodes)) places.entry.needed.now places.entry.kept.now step.now rule) }
{
    if same_side(store, &step.left, &step.right) {
        return Ok(Rule::Refl);
    }
    renamed_rule(alloc, places, &step.rule)
}

/// Puts a step behind the kept ones.
fn put(
    alloc: Global,
    store: &Store,
    kept: &mut Justs,
    places: Places<'_>,
    step: &Step,
) -> Result<usize, AllocError>
    requires rising { IsRising places.needed.now }
    requires fits { Fits store.now.signature (terms (shapes store.now.nodes)) kept.old }
    requires keepable { IsKeepable store.now.signature (terms (shapes store.now.nodes)) places.needed.now places.kept.now kept.old step.now }
    ensures { IfOk result (λ n. IsKept store.now.signature (terms (shapes store.now.nodes)) kept.old kept.new step.now n) }
{
    let rule = rule_of(alloc, store, places, step)?;
    let left = copy_side(alloc, &step.left)?;
    let right = copy_side(alloc, &step.right)?;
    kept.add(store, Step { left, right, rule })
}

/// The number of a kept step that says what a step says; it is put behind the others where there is none yet.
fn keep(
    alloc: Global,
    store: &Store,
    kept: &mut Justs,
    seen: &mut HashMap<usize, usize>,
    places: Places<'_>,
    step: &Step,
) -> Result<usize, AllocError>
    requires rising { IsRising places.needed.now }
    requires fits { Fits store.now.signature (terms (shapes store.now.nodes)) kept.old }
    requires keepable { IsKeepable store.now.signature (terms (shapes store.now.nodes)) places.needed.now places.kept.now kept.old step.now }
    ensures { IfOk result (λ n. IsKept store.now.signature (terms (shapes store.now.nodes)) kept.old kept.new step.now n) }
{
    let slot = slot_of(step);
    if let Some(number) = said(store, kept, seen, slot, step) {
        return Ok(number);
    }
    let number = put(alloc, store, kept, places, step)?;
    seen.insert(slot, number)?;
    Ok(number)
}

/// Steps of which one says what a step says, and rests on assumptions of that step alone: of those that it rests on each says something else, and those
/// that say that a term is itself rest on nothing.
pub fn shortened(
    alloc: Global,
    store: &Store,
    justs: &Justs,
    step: usize,
) -> Result<Short, AllocError>
    requires step { step < length justs.now }
    requires fits { Fits store.now.signature (terms (shapes store.now.nodes)) justs.now }
    ensures short { IfOk result (λ s. IsShort store.now.signature (terms (shapes store.now.nodes)) justs.now step s.justs s.step) }
{
    let steps = justs.steps();
    let needed = needed(alloc, steps, step)?;
    let mut kept = Justs::new(alloc);
    let mut seen = HashMap::new(alloc);
    let mut numbers = List::new(alloc);
    let all = needed.as_slice();
    for number in all {
        let places = Places {
            needed: all,
            kept: numbers.as_slice(),
        };
        let next = keep(alloc, store, &mut kept, &mut seen, places, &steps[*number])?;
        numbers.push(next)?;
    }
    let places = Places {
        needed: all,
        kept: numbers.as_slice(),
    };
    let step = places.of(step);
    Ok(Short { justs: kept, step })
}
