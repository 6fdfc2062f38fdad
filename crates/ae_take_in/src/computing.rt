//! The first number of a name, where arithmetic computes it.
ghost use Rattle.std.specs.Prelude.{◌≡◌, ◌<◌, ℕ, Bool, true, [], length, slice_get, Some, None, IfOk, IfErr, IfSome, IfNone};
ghost use Rattle.ae_math.specs.Forms.{number as number_form};
ghost use Rattle.ae_rules.specs.Linear.{form, is_number};
ghost use Rattle.ae_num.specs.Forms.{meaning, SameMeaning};
ghost use Rattle.ae_num.specs.declared.forms.Lin.{Lin as Number};
ghost use Rattle.ae_constants.specs.Rules.{IsBelow};
ghost use Rattle.ae_store.specs.Growing.{IsFront};
ghost use Rattle.ae_store.specs.Shapes.{shapes};
ghost use Rattle.ae_store.specs.Terms.{terms, named};
ghost use Rattle.ae_just.specs.Steps.{Fits};
ghost use Rattle.ae_state_steps.specs.ValueSteps.{IsNumberName};
ghost use Rattle.ae_value_table.specs.Table.{number_at, leaf_at};
ghost use Rattle.ae_value_fitting.specs.Fitting.{AreSaid};
ghost use Rattle.ae_value_fitting.specs.Refusals.{IfNumber};
ghost use Rattle.ae_entering.specs.Firsts.{AreFirst};
ghost use Rattle.ae_take_in.specs.Computing.{IsComputed, IsFirstNumber};
ghost use Rattle.ae_take_in.specs.Widths.{IsOperandWidth};
ghost use Rattle.ae_take_in.specs.Inner.Operations.{IsApplied, IsGivenBy, form_by};

use crate::joining::{difference_of, negation_of, sum_of};
use crate::products::{product_of, quotient_of};
use ae_constants::rules::{Computed, computed_by};
use ae_entering::laws::names_of_constants_have_their_number;
use ae_first_values::{Given, numeral};
use ae_just::justs::Justs;
use ae_num::forms::Name;
use ae_store::nodes::NodeHead;
use ae_store::store::Store;
use ae_value_fitting::Refused;
use ae_value_table::Values;
use std::alloc::Global;

/// The number of a name that applies the operation of a rule; `None` where the operation isn't linear.
fn operation(
    alloc: Global,
    values: &Values,
    store: &Store,
    constants: &[bool],
    justs: &mut Justs,
    name: Name,
    rule: Computed,
    real: bool,
) -> Result<Option<Given>, Refused>
    requires fits { Fits store.now.signature (terms (shapes store.now.nodes)) justs.old }
    requires said { AreSaid store.now.signature (terms (shapes store.now.nodes)) justs.old values.now }
    requires name { IsNumberName store.now.signature (terms (shapes store.now.nodes)) real name }
    requires applied { IsApplied store.now.signature (terms (shapes store.now.nodes)) real name rule }
    requires below { IsBelow name rule }
    requires within { name < length store.now.nodes }
    requires one_each { length constants.now ≡ length (terms (shapes store.now.nodes)) }
    requires constants { (n : ℕ) (b : Bool) → slice_get constants.now n ≡ Some b → b ≡ is_number (form (named (terms (shapes store.now.nodes)) n)) }
    requires numbers { (n : ℕ) → n < name → is_number (form (named (terms (shapes store.now.nodes)) n)) ≡ true → SameMeaning (meaning (number_at values.now n)) (number_form (form (named (terms (shapes store.now.nodes)) n)).constant) }
    ensures some { IfOk result (λ o. IfSome o (λ given. IsGivenBy store.now.signature (terms (shapes store.now.nodes)) justs.old justs.new values.now real name rule given)) }
    ensures none { IfOk result (λ o. IfNone o ((number : ℕ → Number) → form_by (terms (shapes store.now.nodes)) number rule ≡ None)) }
    ensures wide { IfErr result (λ refused. IfNumber refused (λ width. IsOperandWidth (terms (shapes store.now.nodes)) (number_at values.now) name width)) }
    ensures front { IsFront justs.old justs.new }
    ensures fits { Fits store.now.signature (terms (shapes store.now.nodes)) justs.new }
{
    let _len = store.len();
    match rule {
        Computed::Opaque => Ok(None),
        Computed::Sum(left, right) => {
            let sum = sum_of(alloc, values, store, justs, name, left, right, real)?;
            Ok(Some(sum))
        }
        Computed::Difference(left, right) => {
            let apart = difference_of(alloc, values, store, justs, name, left, right, real)?;
            Ok(Some(apart))
        }
        Computed::Negation(of) => {
            let negated = negation_of(alloc, values, store, justs, name, of, real)?;
            Ok(Some(negated))
        }
        Computed::Product(left, right) => {
            let product = product_of(
                alloc, values, store, constants, justs, name, left, right, real,
            )?;
            Ok(product)
        }
        Computed::Quotient(of, by) => {
            let quotient = quotient_of(alloc, values, store, justs, name, of, by, real)?;
            Ok(quotient)
        }
    }
}

/// The number that its term gives a name whose earlier names have the numbers that theirs give; `None` where arithmetic computes none.
///
/// `Number` comes exactly where a product or a sum of the operation leaves the limits.
pub(crate) fn first_number(
    alloc: Global,
    values: &Values,
    store: &Store,
    constants: &[bool],
    justs: &mut Justs,
    name: Name,
    real: bool,
) -> Result<Option<Given>, Refused>
    requires fits { Fits store.now.signature (terms (shapes store.now.nodes)) justs.old }
    requires said { AreSaid store.now.signature (terms (shapes store.now.nodes)) justs.old values.now }
    requires name { IsNumberName store.now.signature (terms (shapes store.now.nodes)) real name }
    requires within { name < length store.now.nodes }
    requires first { AreFirst store.now.signature (terms (shapes store.now.nodes)) name (number_at values.now) (leaf_at values.now) }
    requires one_each { length constants.now ≡ length (terms (shapes store.now.nodes)) }
    requires constants { (n : ℕ) (b : Bool) → slice_get constants.now n ≡ Some b → b ≡ is_number (form (named (terms (shapes store.now.nodes)) n)) }
    ensures some { IfOk result (λ o. IfSome o (λ given. IsFirstNumber store.now.signature (terms (shapes store.now.nodes)) justs.old justs.new values.now real name given)) }
    ensures none { IfOk result (λ o. IfNone o (IsComputed (terms (shapes store.now.nodes)) name → ⊥)) }
    ensures wide { IfErr result (λ refused. IfNumber refused (λ width. IsOperandWidth (terms (shapes store.now.nodes)) (number_at values.now) name width)) }
    ensures front { IsFront justs.old justs.new }
    ensures fits { Fits store.now.signature (terms (shapes store.now.nodes)) justs.new }
{
    names_of_constants_have_their_number();
    let _len = store.len();
    let node = store.node(name);
    match node.head {
        NodeHead::Fresh(_) => Ok(None),
        NodeHead::Num { top, bottom } => {
            let constant = numeral(alloc, store, justs, name, top, bottom, real)?;
            Ok(Some(constant))
        }
        NodeHead::Of(head) => {
            let rule = computed_by(head, node.args.as_slice());
            let made = operation(alloc, values, store, constants, justs, name, rule, real)?;
            Ok(made)
        }
    }
}
