//! Records that are not the same, down to fields that are not.
ghost use Rattle.std.specs.Prelude.{◌≡◌, ◌<◌, ℕ, List, [], ◌∷◌, length, false, Some, IfOk};
ghost use Rattle.ae_conflicts.specs.Saying.{RestsOnAssumed};
ghost use Rattle.ae_conflicts.specs.declared.assumed.Assumed.{Assumed as AssumedView};
ghost use Rattle.ae_core.specs.Sorts.{sort_of};
ghost use Rattle.ae_core.specs.declared.terms.Sort.{Sort as SortView};
ghost use Rattle.ae_equal_steps.specs.Inner.Pairs.{IsHeld};
ghost use Rattle.ae_equal_steps.specs.Inner.Parts as spec;
ghost use Rattle.ae_just.specs.Steps.{Fits};
ghost use Rattle.ae_settled.specs.Valued.{AreValues};
ghost use Rattle.ae_solving.specs.Inner.Apart.{AreApart, AreListsApart, ArePlacesApart, AreFieldsOf, AreToJoin};
ghost use Rattle.ae_state_steps.specs.ValueSteps.{StatesEqual};
ghost use Rattle.ae_store.specs.Growing.{IsFront};
ghost use Rattle.ae_store.specs.Shapes.{shapes};
ghost use Rattle.ae_store.specs.Terms.{terms, named};
ghost use Rattle.ae_value_fitting.specs.Fitting.{system_in, ArePatterns};
ghost use Rattle.ae_value_table.specs.Alike.{alike};
ghost use Rattle.ae_value_table.specs.Table.{held};

use ae_congruent_steps::state_congruent;
use ae_core::lists::List;
use ae_just::justs::Justs;
use ae_num::forms::Name;
use ae_store::store::Store;
use ae_value_table::{Pattern, Values};
use std::alloc::{AllocError, Global};

/// Two names, and the number of the step that equates them.
#[derive(Clone, Copy)]
pub(crate) struct Equated {
    pub(crate) left: Name,
    pub(crate) right: Name,
    pub(crate) step: usize,
}

/// The name that a pattern is of.
#[tactic(auto, using(ae_equal_steps::proofs::PatternLaws::part_rules))]
fn name_of(pattern: &Pattern) -> Name
    ensures { result ≡ spec.name_of pattern.now }
{
    match pattern {
        Pattern::Number(name) => *name,
        Pattern::Leaf(name) => *name,
        Pattern::Fields { name, .. } => *name,
    }
}

/// The patterns of the fields, none where it is no record's.
#[tactic(auto, using(ae_equal_steps::proofs::PatternLaws::part_rules))]
fn parts_of(pattern: &Pattern) -> &[Pattern]
    ensures { result.now ≡ spec.parts_of pattern.now }
{
    match pattern {
        Pattern::Number(_) => &[],
        Pattern::Leaf(_) => &[],
        Pattern::Fields { fields, .. } => fields.as_slice(),
    }
}

/// The first place in which the names of two lists of patterns aren't the same.
fn first_apart(values: &Values, left: &[Pattern], right: &[Pattern], store: &Store) -> usize
    requires patterns { ArePatterns store.now.signature (terms (shapes store.now.nodes)) (held values.now) }
    requires values { AreValues store.now.signature (system_in (terms (shapes store.now.nodes)) values.now) }
    requires lists { AreListsApart store.now.signature (terms (shapes store.now.nodes)) values.now left.now right.now }
    ensures left_within { result < length left.now }
    ensures right_within { result < length right.now }
    ensures apart { ArePlacesApart values.now left.now right.now result }
{
    let _names = store.len();
    for i in 0..left.len() {
        if !values.same(name_of(&left[i]), name_of(&right[i])) {
            return i;
        }
    }
    unreachable!()
}

/// One number.
fn one(alloc: Global, number: usize) -> Result<List<usize>, AllocError>
    ensures { IfOk result (λ numbers. numbers ≡ number ∷ []) }
{
    let mut numbers = List::new(alloc);
    numbers.push(number)?;
    Ok(numbers)
}

/// Adds the step that one field of two names is equal, which a step equates.
fn state_field(
    alloc: Global,
    store: &Store,
    justs: &mut Justs,
    left: Name,
    right: Name,
    step: usize,
) -> Result<usize, AllocError>
    requires fits { Fits store.now.signature (terms (shapes store.now.nodes)) justs.old }
    requires fields { AreFieldsOf store.now.signature (terms (shapes store.now.nodes)) justs.old left right step }
    ensures states { IfOk result (λ id. StatesEqual justs.new id left right) }
    ensures rests { IfOk result (λ id. (held : List (ℕ × AssumedView)) → RestsOnAssumed (terms (shapes store.now.nodes)) justs.old held step
        → RestsOnAssumed (terms (shapes store.now.nodes)) justs.new held id) }
    ensures front { IsFront justs.old justs.new }
    ensures fits { Fits store.now.signature (terms (shapes store.now.nodes)) justs.new }
{
    let steps = one(alloc, step)?;
    state_congruent(store, justs, left, right, steps)
}

/// Two names of patterns of different values that a step equates, or of the first fields that differ, down to names that are no records.
fn parted(
    alloc: Global,
    values: &Values,
    store: &Store,
    justs: &mut Justs,
    left: &Pattern,
    right: &Pattern,
    step: usize,
) -> Result<Equated, AllocError>
    requires held { IsHeld store.now justs.old values.now }
    requires apart { AreApart store.now.signature (terms (shapes store.now.nodes)) values.now left.now right.now }
    requires states { StatesEqual justs.old step (spec.name_of left.now) (spec.name_of right.now) }
    ensures join { IfOk result (λ e. AreToJoin store.now.signature (terms (shapes store.now.nodes)) values.now e.left e.right) }
    ensures states { IfOk result (λ e. StatesEqual justs.new e.step e.left e.right) }
    ensures rests { IfOk result (λ e. (held : List (ℕ × AssumedView)) → RestsOnAssumed (terms (shapes store.now.nodes)) justs.old held step
        → RestsOnAssumed (terms (shapes store.now.nodes)) justs.new held e.step) }
    ensures front { IsFront justs.old justs.new }
    ensures fits { Fits store.now.signature (terms (shapes store.now.nodes)) justs.new }
{
    let other = name_of(right);
    match left {
        Pattern::Number(name) => Ok(Equated {
            left: *name,
            right: other,
            step,
        }),
        Pattern::Leaf(name) => Ok(Equated {
            left: *name,
            right: other,
            step,
        }),
        Pattern::Fields { fields, .. } => {
            let parts = fields.as_slice();
            let others = parts_of(right);
            let place = first_apart(values, parts, others, store);
            let first = &parts[place];
            let second = &others[place];
            let field = state_field(alloc, store, justs, name_of(first), name_of(second), step)?;
            parted(alloc, values, store, justs, first, second, field)
        }
    }
}

/// Two names of different values that a step equates, or of the first fields that differ, down to names that are no records.
pub(crate) fn plain_names(
    alloc: Global,
    values: &Values,
    store: &Store,
    justs: &mut Justs,
    left: Name,
    right: Name,
    step: usize,
) -> Result<Equated, AllocError>
    requires held { IsHeld store.now justs.old values.now }
    requires within { (left < length store.now.nodes) × (right < length store.now.nodes) }
    requires sorted { (sort : SortView) × (sort_of store.now.signature (named (terms (shapes store.now.nodes)) left) ≡ Some sort) × (sort_of store.now.signature (named (terms (shapes store.now.nodes)) right) ≡ Some sort) }
    requires apart { alike values.now left right ≡ false }
    requires states { StatesEqual justs.old step left right }
    ensures join { IfOk result (λ e. AreToJoin store.now.signature (terms (shapes store.now.nodes)) values.now e.left e.right) }
    ensures states { IfOk result (λ e. StatesEqual justs.new e.step e.left e.right) }
    ensures rests { IfOk result (λ e. (held : List (ℕ × AssumedView)) → RestsOnAssumed (terms (shapes store.now.nodes)) justs.old held step
        → RestsOnAssumed (terms (shapes store.now.nodes)) justs.new held e.step) }
    ensures front { IsFront justs.old justs.new }
    ensures fits { Fits store.now.signature (terms (shapes store.now.nodes)) justs.new }
{
    let first = &values.entry(left).pattern;
    let second = &values.entry(right).pattern;
    parted(alloc, values, store, justs, first, second, step)
}
