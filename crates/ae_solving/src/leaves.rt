//! Equations of two names that are neither numbers nor records.
ghost use Rattle.std.specs.Prelude.{◌≡◌, ◌≢◌, ◌<◌, ◌⊎◌, ℕ, List, length, true, false, Some, None, IfOk};
ghost use Rattle.ae_base.specs.Options.{known};
ghost use Rattle.ae_conflicts.specs.Saying.{RestsOnAssumed};
ghost use Rattle.ae_conflicts.specs.declared.assumed.Assumed.{Assumed as AssumedView};
ghost use Rattle.ae_core.specs.Sorts.{sort_of, is_numeric};
ghost use Rattle.ae_core.specs.declared.terms.Sort.{Sort as SortView};
ghost use Rattle.ae_journal.specs.Journals.{live};
ghost use Rattle.ae_journal.specs.Systems.{record_fields};
ghost use Rattle.ae_just.specs.Steps.{Fits};
ghost use Rattle.ae_pmap.specs.Forest.{present};
ghost use Rattle.ae_settled.specs.Valued.{IsOwnLeaf};
ghost use Rattle.ae_solving.specs.Inner.Taking.{HasTakenUp};
ghost use Rattle.ae_state.specs.Names.{all_terms};
ghost use Rattle.ae_state.specs.Stepping.{IsInStep};
ghost use Rattle.ae_state_steps.specs.ValueSteps.{StatesEqual};
ghost use Rattle.ae_store.specs.Growing.{IsFront};
ghost use Rattle.ae_store.specs.Shapes.{shapes};
ghost use Rattle.ae_store.specs.Terms.{terms, named};
ghost use Rattle.ae_theory.specs.Names.{terms_in};
ghost use Rattle.ae_turns.specs.Representing.{IsTaken};
ghost use Rattle.ae_value_fitting.specs.Fitting.{system_in, AreSaid};
ghost use Rattle.ae_value_table.specs.Alike.{alike};
ghost use Rattle.ae_value_table.specs.Table.{leaf_at};
ghost use Rattle.ae_value_turns.specs.Renewed.{AreGrounded};

use ae_equal_steps::leaf_step;
use ae_journal::journal::Journal;
use ae_just::justs::Justs;
use ae_name_licences::laws::{solve_lines_are_legal, stores_are_in_step};
use ae_name_lines::laws::put_values_are_in_step;
use ae_num::forms::{Name, Value};
use ae_state::Holding;
use ae_store::store::Store;
use ae_theory::theory::Fail;
use ae_turns::Found;
use ae_value_steps::{state_chained, state_turned};
use ae_value_table::Values;
use ae_value_turns::note_solution;
use ae_values::put_leaf;
use std::alloc::{AllocError, Global};

/// A name that gets another as its leaf, and the number of the step that equates the two.
#[derive(Clone, Copy)]
struct Joined {
    name: Name,
    leaf: Name,
    step: usize,
}

/// Adds the step that the leaf of a name is the name.
fn state_from_leaf(
    values: &Values,
    store: &Store,
    justs: &mut Justs,
    name: Name,
) -> Result<usize, AllocError>
    requires fits { Fits store.now.signature (terms (shapes store.now.nodes)) justs.old }
    requires said { AreSaid store.now.signature (terms (shapes store.now.nodes)) justs.old values.now }
    requires sorted { known (sort_of store.now.signature (named (terms (shapes store.now.nodes)) name)) ≡ true }
    ensures states { IfOk result (λ id. StatesEqual justs.new id (leaf_at values.now name) name) }
    ensures rests { IfOk result (λ id. (held : List (ℕ × AssumedView)) → AreGrounded (terms (shapes store.now.nodes)) held justs.old values.now
        → RestsOnAssumed (terms (shapes store.now.nodes)) justs.new held id) }
    ensures front { IsFront justs.old justs.new }
    ensures fits { Fits store.now.signature (terms (shapes store.now.nodes)) justs.new }
{
    let leaf = values.leaf(name);
    let step = leaf_step(values, store, justs, name)?;
    state_turned(store, justs, leaf, name, step)
}

/// Adds the step that the leaves of two names are equal, which a step equates.
fn state_leaves(
    values: &Values,
    store: &Store,
    justs: &mut Justs,
    left: Name,
    right: Name,
    step: usize,
) -> Result<usize, AllocError>
    requires fits { Fits store.now.signature (terms (shapes store.now.nodes)) justs.old }
    requires said { AreSaid store.now.signature (terms (shapes store.now.nodes)) justs.old values.now }
    requires left_sorted { known (sort_of store.now.signature (named (terms (shapes store.now.nodes)) left)) ≡ true }
    requires right_sorted { known (sort_of store.now.signature (named (terms (shapes store.now.nodes)) right)) ≡ true }
    requires states { StatesEqual justs.old step left right }
    ensures states { IfOk result (λ id. StatesEqual justs.new id (leaf_at values.now left) (leaf_at values.now right)) }
    ensures rests { IfOk result (λ id. (held : List (ℕ × AssumedView)) → AreGrounded (terms (shapes store.now.nodes)) held justs.old values.now
        → RestsOnAssumed (terms (shapes store.now.nodes)) justs.old held step → RestsOnAssumed (terms (shapes store.now.nodes)) justs.new held id) }
    ensures front { IsFront justs.old justs.new }
    ensures fits { Fits store.now.signature (terms (shapes store.now.nodes)) justs.new }
{
    let leaf = values.leaf(left);
    let other = values.leaf(right);
    let first = state_from_leaf(values, store, justs, left)?;
    let second = leaf_step(values, store, justs, right)?;
    let between = state_chained(store, justs, leaf, right, first, step)?;
    state_chained(store, justs, leaf, other, between, second)
}

/// Of two names that a step equates the larger, which gets the smaller as its leaf.
fn larger_first(
    store: &Store,
    justs: &mut Justs,
    left: Name,
    right: Name,
    step: usize,
) -> Result<Joined, AllocError>
    requires fits { Fits store.now.signature (terms (shapes store.now.nodes)) justs.old }
    requires differ { left ≢ right }
    requires states { StatesEqual justs.old step left right }
    ensures order { IfOk result (λ j. j.leaf < j.name) }
    ensures both { IfOk result (λ j. ((j.name ≡ left) × (j.leaf ≡ right)) ⊎ ((j.name ≡ right) × (j.leaf ≡ left))) }
    ensures states { IfOk result (λ j. StatesEqual justs.new j.step j.name j.leaf) }
    ensures rests { IfOk result (λ j. (held : List (ℕ × AssumedView)) → RestsOnAssumed (terms (shapes store.now.nodes)) justs.old held step
        → RestsOnAssumed (terms (shapes store.now.nodes)) justs.new held j.step) }
    ensures front { IsFront justs.old justs.new }
    ensures fits { Fits store.now.signature (terms (shapes store.now.nodes)) justs.new }
{
    if right < left {
        return Ok(Joined {
            name: left,
            leaf: right,
            step,
        });
    }
    let turned = state_turned(store, justs, right, left, step)?;
    Ok(Joined {
        name: right,
        leaf: left,
        step: turned,
    })
}

/// Of the leaves of two names that a step equates the larger, which gets the smaller as its leaf.
fn join_leaves(
    values: &Values,
    store: &Store,
    justs: &mut Justs,
    left: Name,
    right: Name,
    step: usize,
) -> Result<Joined, AllocError>
    requires fits { Fits store.now.signature (terms (shapes store.now.nodes)) justs.old }
    requires said { AreSaid store.now.signature (terms (shapes store.now.nodes)) justs.old values.now }
    requires left_sorted { known (sort_of store.now.signature (named (terms (shapes store.now.nodes)) left)) ≡ true }
    requires right_sorted { known (sort_of store.now.signature (named (terms (shapes store.now.nodes)) right)) ≡ true }
    requires differ { leaf_at values.now left ≢ leaf_at values.now right }
    requires states { StatesEqual justs.old step left right }
    ensures order { IfOk result (λ j. j.leaf < j.name) }
    ensures both { IfOk result (λ j. ((j.name ≡ leaf_at values.now left) × (j.leaf ≡ leaf_at values.now right)) ⊎ ((j.name ≡ leaf_at values.now right) × (j.leaf ≡ leaf_at values.now left))) }
    ensures states { IfOk result (λ j. StatesEqual justs.new j.step j.name j.leaf) }
    ensures rests { IfOk result (λ j. (held : List (ℕ × AssumedView)) → AreGrounded (terms (shapes store.now.nodes)) held justs.old values.now
        → RestsOnAssumed (terms (shapes store.now.nodes)) justs.old held step → RestsOnAssumed (terms (shapes store.now.nodes)) justs.new held j.step) }
    ensures front { IsFront justs.old justs.new }
    ensures fits { Fits store.now.signature (terms (shapes store.now.nodes)) justs.new }
{
    let leaf = values.leaf(left);
    let other = values.leaf(right);
    let whole = state_leaves(values, store, justs, left, right, step)?;
    larger_first(store, justs, leaf, other, whole)
}

/// Notes the line that gives a name its leaf, and puts the leaf for it in all values.
fn put_joined(
    alloc: Global,
    held: &mut Holding,
    store: &Store,
    journal: &mut Journal,
    join: Joined,
) -> Result<Found, Fail>
    requires taken { IsTaken held.old store.now }
    requires step { IsInStep held.old (live journal.old.lines) }
    requires own { (sort : SortView) × IsOwnLeaf store.now.signature (system_in (terms_in store.now) held.old.values) sort join.name × IsOwnLeaf store.now.signature (system_in (terms_in store.now) held.old.values) sort join.leaf }
    requires order { join.leaf < join.name }
    requires states { StatesEqual held.old.justs join.step join.name join.leaf }
    requires rests { RestsOnAssumed (all_terms held.old) held.old.justs (present held.old.assumed) join.step }
    ensures { HasTakenUp store.now held.old journal.old held.new journal.new result }
{
    stores_are_in_step();
    solve_lines_are_legal();
    put_values_are_in_step();
    note_solution(journal, join.name, Value::Leaf(join.leaf))?;
    put_leaf(
        alloc,
        &mut held.values,
        store,
        &mut held.justs,
        join.name,
        join.leaf,
        join.step,
    )?;
    Ok(Found::Advanced)
}

/// Takes up the equation of two names of one sort, neither numbers nor records, that have different leaves: the larger leaf gets the smaller one.
pub(crate) fn leaf_equation(
    alloc: Global,
    held: &mut Holding,
    store: &Store,
    journal: &mut Journal,
    left: Name,
    right: Name,
    step: usize,
) -> Result<Found, Fail>
    requires taken { IsTaken held.old store.now }
    requires step { IsInStep held.old (live journal.old.lines) }
    requires within { (left < length (terms_in store.now)) × (right < length (terms_in store.now)) }
    requires sorted { (sort : SortView) × (sort_of store.now.signature (named (terms_in store.now) left) ≡ Some sort) × (sort_of store.now.signature (named (terms_in store.now) right) ≡ Some sort)
        × (is_numeric sort ≡ false) × (record_fields store.now.signature sort ≡ None) }
    requires states { StatesEqual held.old.justs step left right }
    requires rests { RestsOnAssumed (all_terms held.old) held.old.justs (present held.old.assumed) step }
    requires apart { alike held.old.values left right ≡ false }
    ensures { HasTakenUp store.now held.old journal.old held.new journal.new result }
{
    let join = join_leaves(&held.values, store, &mut held.justs, left, right, step)?;
    put_joined(alloc, held, store, journal, join)
}
