//! Names are taken in, one after another.
ghost use Rattle.std.specs.Prelude.{◌≡◌, ◌<◌, ◌≤◌, ℕ, Bool, false, [], length, take, slice_get, Some, OnOk, OnErr, IfErr};
ghost use Rattle.ae_core.specs.Sorts.{sort_of, is_numeric as numeric};
ghost use Rattle.ae_core.specs.declared.terms.Sort.{Sort as SortOf};
ghost use Rattle.ae_num.specs.declared.forms.Value.{Value as ValueOf};
ghost use Rattle.ae_rules.specs.Linear.{form, is_number};
ghost use Rattle.ae_store.specs.Growing.{IsFront};
ghost use Rattle.ae_store.specs.Shapes.{shapes};
ghost use Rattle.ae_store.specs.Terms.{terms, named};
ghost use Rattle.ae_just.specs.Steps.{Fits};
ghost use Rattle.ae_settled.specs.Valued.{AreValues};
ghost use Rattle.ae_state_steps.specs.ValueSteps.{IsNumberName};
ghost use Rattle.ae_strips.specs.Stripping.{StripsTo};
ghost use Rattle.ae_value_table.specs.Table.{own, held, number_at, leaf_at, values as values_of};
ghost use Rattle.ae_value_table.specs.Versions.{IsAs, Lasts};
ghost use Rattle.ae_value_fitting.specs.Fitting.{system_in, ArePatterns, AreSaid};
ghost use Rattle.ae_value_fitting.specs.Refusals.{IfNumber};
ghost use Rattle.ae_value_fitting.specs.Sources.{AreFromValues};
ghost use Rattle.ae_patterns.specs.Patterns.{AreEntriesOf};
ghost use Rattle.ae_entering.specs.Firsts.{AreFirst};
ghost use Rattle.ae_take_in.specs.Computing.{IsComputed};
ghost use Rattle.ae_take_in.specs.Widths.{IsOperandWidth};
ghost use Rattle.ae_take_in.specs.TakingWidths.{IsTakingWidth};
ghost use Rattle.ae_take_in.specs.Inner.Next.{AreBelow};
ghost use Rattle.ae_take_in.specs.Inner.Taking.{IsTakenNext, AreTakenTo};

use crate::covering::covered_leaf;
use crate::entries::enter_all;
use crate::next::next_number;
use crate::putting::{put_given, put_led};
use ae_core::equality::same_sort;
use ae_core::problems::Signature;
use ae_core::sorts::is_numeric;
use ae_core::terms::Sort;
use ae_entering::laws::{
    entries_of_all_names_fit, first_values_of_all_names_are_a_systems,
    the_next_name_is_among_the_first, values_of_a_system_are_first,
};
use ae_just::justs::Justs;
use ae_num::forms::Name;
use ae_steps::Steps;
use ae_store::store::Store;
use ae_value_fitting::Refused;
use ae_value_table::Values;
use std::alloc::{AllocError, Global};
use std::marker::Brand;
use std::sync::ledger::{Blank, Ledger};

/// Takes in a name that is a number.
fn take_number(
    alloc: Global,
    values: &mut Values,
    store: &Store,
    constants: &[bool],
    justs: &mut Justs,
    name: Name,
    real: bool,
) -> Result<(), Refused>
    requires fits { Fits store.now.signature (terms (shapes store.now.nodes)) justs.old }
    requires said { AreSaid store.now.signature (terms (shapes store.now.nodes)) justs.old values.old }
    requires name { IsNumberName store.now.signature (terms (shapes store.now.nodes)) real name }
    requires within { name < length store.now.nodes }
    requires first { AreFirst store.now.signature (terms (shapes store.now.nodes)) name (number_at values.old) (leaf_at values.old) }
    requires below { AreBelow name values.old }
    requires one_each { length constants.now ≡ length (terms (shapes store.now.nodes)) }
    requires constants { (n : ℕ) (b : Bool) → slice_get constants.now n ≡ Some b → b ≡ is_number (form (named (terms (shapes store.now.nodes)) n)) }
    ensures taken { OnOk result (IsTakenNext store.now.signature (terms (shapes store.now.nodes)) justs.old justs.new values.old values.new name) }
    ensures rest { values.new ≡ record values.old { rows = values.new.rows; leaves = values.new.leaves; justs = values.new.justs } }
    ensures wide { IfErr result (λ refused. IfNumber refused (λ width. IsOperandWidth (terms (shapes store.now.nodes)) (number_at values.old) name width)) }
    ensures front { IsFront justs.old justs.new }
    ensures fits { Fits store.now.signature (terms (shapes store.now.nodes)) justs.new }
    ensures lasts { Lasts values.old values.new }
{
    the_next_name_is_among_the_first();
    let _len = store.len();
    let _row = values.row(name);
    let next = next_number(alloc, values, store, constants, justs, name, real)?;
    match next {
        None => Ok(()),
        Some(given) => {
            put_given(values, name, given)?;
            Ok(())
        }
    }
}

/// Takes in a name that is no number.
fn take_leaf(
    alloc: Global,
    values: &mut Values,
    store: &Store,
    justs: &mut Justs,
    name: Name,
) -> Result<(), AllocError>
    requires fits { Fits store.now.signature (terms (shapes store.now.nodes)) justs.old }
    requires said { AreSaid store.now.signature (terms (shapes store.now.nodes)) justs.old values.old }
    requires other { (s : SortOf) → sort_of store.now.signature (named (terms (shapes store.now.nodes)) name) ≡ Some s → numeric s ≡ false }
    requires within { name < length store.now.nodes }
    requires first { AreFirst store.now.signature (terms (shapes store.now.nodes)) name (number_at values.old) (leaf_at values.old) }
    requires below { AreBelow name values.old }
    ensures taken { OnOk result (IsTakenNext store.now.signature (terms (shapes store.now.nodes)) justs.old justs.new values.old values.new name) }
    ensures rest { values.new ≡ record values.old { rows = values.new.rows; leaves = values.new.leaves; justs = values.new.justs } }
    ensures front { IsFront justs.old justs.new }
    ensures fits { Fits store.now.signature (terms (shapes store.now.nodes)) justs.new }
    ensures lasts { Lasts values.old values.new }
{
    the_next_name_is_among_the_first();
    let _len = store.len();
    let covered = covered_leaf(alloc, values, store, justs, name)?;
    match covered {
        None => Ok(()),
        Some(led) => {
            put_led(values, name, led)?;
            Ok(())
        }
    }
}

/// Takes in the next name.
fn take_next(
    alloc: Global,
    values: &mut Values,
    store: &Store,
    constants: &[bool],
    justs: &mut Justs,
    name: Name,
) -> Result<(), Refused>
    requires fits { Fits store.now.signature (terms (shapes store.now.nodes)) justs.old }
    requires said { AreSaid store.now.signature (terms (shapes store.now.nodes)) justs.old values.old }
    requires within { name < length store.now.nodes }
    requires first { AreFirst store.now.signature (terms (shapes store.now.nodes)) name (number_at values.old) (leaf_at values.old) }
    requires below { AreBelow name values.old }
    requires one_each { length constants.now ≡ length (terms (shapes store.now.nodes)) }
    requires constants { (n : ℕ) (b : Bool) → slice_get constants.now n ≡ Some b → b ≡ is_number (form (named (terms (shapes store.now.nodes)) n)) }
    ensures taken { OnOk result (IsTakenNext store.now.signature (terms (shapes store.now.nodes)) justs.old justs.new values.old values.new name) }
    ensures rest { values.new ≡ record values.old { rows = values.new.rows; leaves = values.new.leaves; justs = values.new.justs } }
    ensures wide { IfErr result (λ refused. IfNumber refused (λ width. IsOperandWidth (terms (shapes store.now.nodes)) (number_at values.old) name width)) }
    ensures front { IsFront justs.old justs.new }
    ensures fits { Fits store.now.signature (terms (shapes store.now.nodes)) justs.new }
    ensures lasts { Lasts values.old values.new }
{
    let _len = store.len();
    let node = store.node(name);
    if is_numeric(&node.sort) {
        let real = same_sort(&node.sort, &Sort::Real);
        take_number(alloc, values, store, constants, justs, name, real)?;
        Ok(())
    } else {
        take_leaf(alloc, values, store, justs, name)?;
        Ok(())
    }
}

/// Takes in all names that aren't taken in. A refusal leaves some of it done.
fn take_all(
    alloc: Global,
    values: &mut Values,
    store: &Store,
    constants: &[bool],
    justs: &mut Justs,
) -> Result<(), Refused>
    requires fits { Fits store.now.signature (terms (shapes store.now.nodes)) justs.old }
    requires said { AreSaid store.now.signature (terms (shapes store.now.nodes)) justs.old values.old }
    requires first { AreFirst store.now.signature (terms (shapes store.now.nodes)) values.old.taken (number_at values.old) (leaf_at values.old) }
    requires below { AreBelow values.old.taken values.old }
    requires all { length values.old.entries ≡ length (terms (shapes store.now.nodes)) }
    requires one_each { length constants.now ≡ length (terms (shapes store.now.nodes)) }
    requires constants { (n : ℕ) (b : Bool) → slice_get constants.now n ≡ Some b → b ≡ is_number (form (named (terms (shapes store.now.nodes)) n)) }
    ensures taken { OnOk result (AreTakenTo store.now.signature (terms (shapes store.now.nodes)) justs.old justs.new values.old values.new values.old.taken (length (terms (shapes store.now.nodes)))) }
    ensures all { OnOk result (values.new.taken ≡ length (terms (shapes store.now.nodes))) }
    ensures entries { values.new.entries ≡ values.old.entries }
    ensures wide { IfErr result (λ refused. IfNumber refused (λ width. IsTakingWidth store.now.signature (terms (shapes store.now.nodes)) values.old width)) }
    ensures front { IsFront justs.old justs.new }
    ensures fits { Fits store.now.signature (terms (shapes store.now.nodes)) justs.new }
    ensures lasts { Lasts values.old values.new }
{
    let start = values.len();
    let end = store.len();
    for name in start..end {
        take_next(alloc, values, store, constants, justs, name)?;
    }
    values.hold(end);
    Ok(())
}

/// The same, counted by a ledger of its own: a refusal goes back to a version that was shared first.
fn take_counted<L: Ledger>(
    alloc: Global,
    values: &mut Values,
    store: &Store,
    constants: &[bool],
    justs: &mut Justs,
    blank: Blank,
) -> Result<(), Refused>
    requires brand { blank.name ≡ L.name }
    requires parts { blank.parts ≡ L.parts }
    requires some { 0 < blank.parts }
    requires fits { Fits store.now.signature (terms (shapes store.now.nodes)) justs.old }
    requires said { AreSaid store.now.signature (terms (shapes store.now.nodes)) justs.old values.old }
    requires first { AreFirst store.now.signature (terms (shapes store.now.nodes)) values.old.taken (number_at values.old) (leaf_at values.old) }
    requires below { AreBelow values.old.taken values.old }
    requires all { length values.old.entries ≡ length (terms (shapes store.now.nodes)) }
    requires one_each { length constants.now ≡ length (terms (shapes store.now.nodes)) }
    requires constants { (n : ℕ) (b : Bool) → slice_get constants.now n ≡ Some b → b ≡ is_number (form (named (terms (shapes store.now.nodes)) n)) }
    ensures taken { OnOk result (AreTakenTo store.now.signature (terms (shapes store.now.nodes)) justs.old justs.new values.old values.new values.old.taken (length (terms (shapes store.now.nodes)))) }
    ensures all { OnOk result (values.new.taken ≡ length (terms (shapes store.now.nodes))) }
    ensures entries { values.new.entries ≡ values.old.entries }
    ensures err { OnErr result (IsAs values.new values.old) }
    ensures wide { IfErr result (λ refused. IfNumber refused (λ width. IsTakingWidth store.now.signature (terms (shapes store.now.nodes)) values.old width)) }
    ensures front { IsFront justs.old justs.new }
    ensures fits { Fits store.now.signature (terms (shapes store.now.nodes)) justs.new }
    ensures lasts { Lasts values.old values.new }
{
    let mut steps = Steps::<L>::new(blank);
    let shared = values.share(&mut steps);
    match take_all(alloc, values, store, constants, justs) {
        Ok(()) => Ok(()),
        Err(refused) => {
            values.back(&shared, &mut steps);
            Err(refused)
        }
    }
}

/// Takes in all names of a store that aren't taken in: what is known of them for good is entered, and each gets the number or the leaf that its term
/// gives it, where that isn't its own, with a step that says so. What the steps that say values rest on, such steps rested on before.
///
/// `Number` comes exactly where a product or a sum of the operation of a new name leaves the limits. A refusal leaves the values as they were.
pub fn take_in(
    alloc: Global,
    values: &mut Values,
    store: &Store,
    signature: &Signature,
    constants: &[bool],
    justs: &mut Justs,
) -> Result<(), Refused>
    requires same { signature.now ≡ store.now.signature }
    requires fits { Fits store.now.signature (terms (shapes store.now.nodes)) justs.old }
    requires entries { AreEntriesOf store.now.signature (terms (shapes store.now.nodes)) values.old.entries }
    requires values { AreValues store.now.signature (system_in (take values.old.taken (terms (shapes store.now.nodes))) values.old) }
    requires said { AreSaid store.now.signature (take values.old.taken (terms (shapes store.now.nodes))) justs.old values.old }
    requires one_each { length constants.now ≡ length (terms (shapes store.now.nodes)) }
    requires constants { (n : ℕ) (b : Bool) → slice_get constants.now n ≡ Some b → b ≡ is_number (form (named (terms (shapes store.now.nodes)) n)) }
    ensures ok { OnOk result (values.new.taken ≡ length (terms (shapes store.now.nodes))) }
    ensures patterns { OnOk result (ArePatterns store.now.signature (terms (shapes store.now.nodes)) (held values.new)) }
    ensures entries { AreEntriesOf store.now.signature (terms (shapes store.now.nodes)) values.new.entries }
    ensures known { IsFront values.old.entries values.new.entries }
    ensures values { AreValues store.now.signature (system_in (take values.new.taken (terms (shapes store.now.nodes))) values.new) }
    ensures said { AreSaid store.now.signature (take values.new.taken (terms (shapes store.now.nodes))) justs.new values.new }
    ensures sources { AreFromValues justs.old justs.new values.old values.new [] }
    ensures kept { (n : ℕ) (v : ValueOf) → slice_get (values_of values.old) n ≡ Some v → slice_get (values_of values.new) n ≡ Some v }
    ensures unchanged { (n : ℕ) → n < values.old.taken → (number_at values.new n ≡ number_at values.old n) × (leaf_at values.new n ≡ leaf_at values.old n) }
    ensures own { OnOk result ((n : ℕ) → values.old.taken ≤ n → n < length (terms (shapes store.now.nodes)) → (IsComputed (terms (shapes store.now.nodes)) n → ⊥) → StripsTo (terms (shapes store.now.nodes)) n n → (number_at values.new n ≡ own n) × (leaf_at values.new n ≡ n)) }
    ensures err { OnErr result (IsAs values.new values.old) }
    ensures wide { IfErr result (λ refused. IfNumber refused (λ width. IsTakingWidth store.now.signature (terms (shapes store.now.nodes)) values.old width)) }
    ensures front { IsFront justs.old justs.new }
    ensures fits { Fits store.now.signature (terms (shapes store.now.nodes)) justs.new }
    ensures lasts { Lasts values.old values.new }
{
    values_of_a_system_are_first();
    first_values_of_all_names_are_a_systems();
    entries_of_all_names_fit();
    let _names = store.len();
    let _taken = values.len();
    enter_all(alloc, values, signature, store)?;
    take_counted::<Brand>(alloc, values, store, constants, justs, Blank::new(1))
}
