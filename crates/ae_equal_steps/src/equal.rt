//! Names of one sort and one value.
ghost use Rattle.std.specs.Prelude.{◌≡◌, [], true, Some, slice_get, IsTrue, IfOk};
ghost use Rattle.ae_base.specs.Options.{known};
ghost use Rattle.ae_core.specs.Sorts.{sort_of};
ghost use Rattle.ae_store.specs.Growing.{IsFront};
ghost use Rattle.ae_store.specs.Shapes.{shapes};
ghost use Rattle.ae_store.specs.Terms.{terms, named};
ghost use Rattle.ae_just.specs.Steps.{Fits};
ghost use Rattle.ae_settled.specs.Valued.{AreValues};
ghost use Rattle.ae_state_steps.specs.ValueSteps.{StatesEqual};
ghost use Rattle.ae_value_table.specs.declared.patterns.Entry.{Entry as EntrySpec};
ghost use Rattle.ae_value_table.specs.Table.{held};
ghost use Rattle.ae_value_table.specs.Alike.{alike};
ghost use Rattle.ae_value_fitting.specs.Fitting.{system_in, ArePatterns, AreSaid};
ghost use Rattle.ae_value_fitting.specs.Sources.{RestsOnValues};
ghost use Rattle.ae_equal_steps.specs.Inner.Parts as spec;
ghost use Rattle.ae_equal_steps.specs.Inner.Pairs.{IsHeld, IsPair, ArePairs, AreEqualBy};

use crate::leaves::equal_leaves;
use crate::numbers::equal_numbers;
use crate::parts::{name_of, parts_of};
use crate::records::state_fields;
use ae_core::lists::List;
use ae_just::justs::Justs;
use ae_num::forms::Name;
use ae_store::store::Store;
use ae_value_steps::state_itself;
use ae_value_table::{Pattern, Values};
use std::alloc::{AllocError, Global};

/// Adds the step that the names of two patterns of one value are equal.
#[cycle(equal_patterns)]
fn equal_patterns(
    alloc: Global,
    values: &Values,
    store: &Store,
    justs: &mut Justs,
    left: &Pattern,
    right: &Pattern,
) -> Result<usize, AllocError>
    requires held { IsHeld store.now justs.old values.now }
    requires pair { IsPair store.now.signature (terms (shapes store.now.nodes)) values.now left.now right.now }
    ensures states { IfOk result (λ id. StatesEqual justs.new id (spec.name_of left.now) (spec.name_of right.now)) }
    ensures rests { IfOk result (λ id. RestsOnValues justs.old justs.new values.now [] id) }
    ensures front { IsFront justs.old justs.new }
    ensures fits { Fits store.now.signature (terms (shapes store.now.nodes)) justs.new }
{
    let other = name_of(right);
    match left {
        Pattern::Number(name) => equal_numbers(alloc, values, store, justs, *name, other),
        Pattern::Leaf(name) => equal_leaves(values, store, justs, *name, other),
        Pattern::Fields { name, fields } => {
            let others = parts_of(right);
            let steps = equal_fields(alloc, values, store, justs, fields.as_slice(), others)?;
            state_fields(store, justs, *name, other, steps)
        }
    }
}

/// Adds the steps that the names of two lists of patterns are equal, place by place.
#[cycle(equal_patterns)]
fn equal_fields(
    alloc: Global,
    values: &Values,
    store: &Store,
    justs: &mut Justs,
    left: &[Pattern],
    right: &[Pattern],
) -> Result<List<usize>, AllocError>
    requires held { IsHeld store.now justs.old values.now }
    requires pairs { ArePairs store.now.signature (terms (shapes store.now.nodes)) values.now left.now right.now }
    ensures equal { IfOk result (λ ids. AreEqualBy justs.old justs.new values.now left.now right.now ids) }
    ensures front { IsFront justs.old justs.new }
    ensures fits { Fits store.now.signature (terms (shapes store.now.nodes)) justs.new }
{
    let mut steps = List::new(alloc);
    for i in 0..left.len() {
        let step = equal_patterns(alloc, values, store, justs, &left[i], &right[i])?;
        steps.push(step)?;
    }
    Ok(steps)
}

/// What the value of a name is made of.
fn pattern_of(values: &Values, name: Name) -> &Pattern
    requires { (entry : EntrySpec) × (slice_get (held values.now) name ≡ Some entry) }
    ensures { (entry : EntrySpec) → slice_get (held values.now) name ≡ Some entry → entry.pattern ≡ result.now }
{
    &values.entry(name).pattern
}

/// Adds the step that two names of one sort and one value are equal. It rests on the steps that say values.
pub fn equal_step(
    alloc: Global,
    values: &Values,
    store: &Store,
    justs: &mut Justs,
    left: Name,
    right: Name,
) -> Result<usize, AllocError>
    requires fits { Fits store.now.signature (terms (shapes store.now.nodes)) justs.old }
    requires patterns { ArePatterns store.now.signature (terms (shapes store.now.nodes)) (held values.now) }
    requires values { AreValues store.now.signature (system_in (terms (shapes store.now.nodes)) values.now) }
    requires said { AreSaid store.now.signature (terms (shapes store.now.nodes)) justs.old values.now }
    requires left_sorted { known (sort_of store.now.signature (named (terms (shapes store.now.nodes)) left)) ≡ true }
    requires right_sorted { known (sort_of store.now.signature (named (terms (shapes store.now.nodes)) right)) ≡ true }
    requires alike { IsTrue (alike values.now left right) }
    ensures states { IfOk result (λ id. StatesEqual justs.new id left right) }
    ensures rests { IfOk result (λ id. RestsOnValues justs.old justs.new values.now [] id) }
    ensures front { IsFront justs.old justs.new }
    ensures fits { Fits store.now.signature (terms (shapes store.now.nodes)) justs.new }
{
    let _names = store.len();
    if left == right {
        return state_itself(store, justs, left);
    }
    let first = pattern_of(values, left);
    let second = pattern_of(values, right);
    equal_patterns(alloc, values, store, justs, first, second)
}
