//! The exact forms of all names of a store.

ghost use Rattle.std.specs.Prelude.{List, ◌≡◌, ◌≤◌, ◌<◌, ◌<ℤ◌, ◌↔◌, ℕ, suc, [], length, IfOk, OnOk, IsTrue, true, slice_get, Some, Bool};
ghost use Rattle.ae_core.specs.declared.terms.Term.{Term, Num as Numeral};
ghost use Rattle.ae_math.specs.Fractions.{ratio, neg_ℚ, one_ℚ};
ghost use Rattle.ae_math.specs.Forms.{plus, minus, scale};
ghost use Rattle.ae_rules.specs.Linear.{Linear, form, is_number, times, over, ruled};
ghost use Rattle.ae_naturals.specs.Fractions.{value_of};
ghost use Rattle.ae_store.specs.Growing.{IsFront};
ghost use Rattle.ae_store.specs.Stores.{IsStore};
ghost use Rattle.ae_store.specs.Shapes.{shapes};
ghost use Rattle.ae_store.specs.Terms.{terms, named, HasOneName};
ghost use Rattle.ae_constants.specs.Forms.{meaning, IsExact};
ghost use Rattle.ae_constants.specs.Rules.{standing_for, IsBelow, IsHeadOf};
ghost use Rattle.ae_constants.specs.Tables.{AreForms, with_form};

use crate::forms::{ExactForm, combination, multiple_of, number, single};
use crate::rules::{Computed, computed_by};
use ae_core::lists::List;
use ae_naturals::fractions::Fraction;
use ae_num::forms::Name;
use ae_store::nodes::NodeHead;
use ae_store::store::Store;
use std::alloc::{AllocError, Global};

/// The exact linear forms of the names that were taken in, the first of a store.
#[derive(Drop)]
pub struct Forms {
    pub forms: List<ExactForm>,
}

/// The number of a numeral, which is 0 where the bottom isn't positive.
fn numeral(alloc: Global, top: i128, bottom: i128) -> Result<Fraction, AllocError>
    ensures { IfOk result (λ fraction. value_of fraction ≡ ratio top bottom) }
{
    if bottom > 0 {
        let fraction = Fraction::ratio(alloc, top, bottom)?;
        return Ok(fraction);
    }
    let zero = Fraction::ratio(alloc, 0, 1)?;
    Ok(zero)
}

/// The form of a product: linear where the form of a factor is a number.
fn product(
    alloc: Global,
    name: Name,
    left: &ExactForm,
    right: &ExactForm,
) -> Result<ExactForm, AllocError>
    ensures { IfOk result (λ product. (ts : List Term) (below : ℕ) (g h : Linear) → HasOneName ts → below ≤ length ts → name < below → IsExact ts below g (meaning left.now) → IsExact ts below h (meaning right.now) → IsExact ts below (times (named ts name) g h) (meaning product)) }
{
    if left.is_number() {
        let product = multiple_of(alloc, right, &left.constant)?;
        return Ok(product);
    }
    if right.is_number() {
        let product = multiple_of(alloc, left, &right.constant)?;
        return Ok(product);
    }
    let whole = single(alloc, name)?;
    Ok(whole)
}

/// The form of a quotient by a numeral: linear where that isn't 0.
fn numeral_quotient(
    alloc: Global,
    name: Name,
    form: &ExactForm,
    top: i128,
    bottom: i128,
) -> Result<ExactForm, AllocError>
    ensures { IfOk result (λ quotient. (ts : List Term) (below : ℕ) (g : Linear) (real : Bool) → name < below → IsExact ts below g (meaning form.now) → IsExact ts below (over (named ts name) g (Numeral top bottom real)) (meaning quotient)) }
{
    if top == 0 || bottom <= 0 {
        let whole = single(alloc, name)?;
        return Ok(whole);
    }
    let inverse = Fraction::inverse_ratio(alloc, top, bottom)?;
    let quotient = multiple_of(alloc, form, &inverse)?;
    Ok(quotient)
}

/// The form of a quotient by a term of this head: linear where that is a numeral other than 0.
fn quotient(
    alloc: Global,
    name: Name,
    form: &ExactForm,
    by: NodeHead,
) -> Result<ExactForm, AllocError>
    ensures { IfOk result (λ quotient. (ts : List Term) (below : ℕ) (g : Linear) (u : Term) → IsHeadOf by u → name < below → IsExact ts below g (meaning form.now) → IsExact ts below (over (named ts name) g u) (meaning quotient)) }
{
    match by {
        NodeHead::Num { top, bottom } => {
            let quotient = numeral_quotient(alloc, name, form, top, bottom)?;
            Ok(quotient)
        }
        NodeHead::Of(_) => {
            let whole = single(alloc, name)?;
            Ok(whole)
        }
        NodeHead::Fresh(_) => {
            let whole = single(alloc, name)?;
            Ok(whole)
        }
    }
}

/// The form of the sum of two earlier names.
fn sum(
    alloc: Global,
    earlier: &[ExactForm],
    left: Name,
    right: Name,
) -> Result<ExactForm, AllocError>
    requires left { left < length earlier.now }
    requires right { right < length earlier.now }
    ensures { IfOk result (λ sum. (ts : List Term) → AreForms ts earlier.now → IsExact ts (suc (length earlier.now)) (plus (form (named ts left)) (form (named ts right))) (meaning sum)) }
{
    let one = Fraction::ratio(alloc, 1, 1)?;
    let sum = combination(alloc, &earlier[left], &earlier[right], &one)?;
    Ok(sum)
}

/// The form of the difference of two earlier names.
fn difference(
    alloc: Global,
    earlier: &[ExactForm],
    left: Name,
    right: Name,
) -> Result<ExactForm, AllocError>
    requires left { left < length earlier.now }
    requires right { right < length earlier.now }
    ensures { IfOk result (λ difference. (ts : List Term) → AreForms ts earlier.now → IsExact ts (suc (length earlier.now)) (minus (form (named ts left)) (form (named ts right))) (meaning difference)) }
{
    let minus_one = Fraction::ratio(alloc, -1, 1)?;
    let difference = combination(alloc, &earlier[left], &earlier[right], &minus_one)?;
    Ok(difference)
}

/// The form of the negation of an earlier name.
fn negation(alloc: Global, earlier: &[ExactForm], of: Name) -> Result<ExactForm, AllocError>
    requires { of < length earlier.now }
    ensures { IfOk result (λ negation. (ts : List Term) → AreForms ts earlier.now → IsExact ts (suc (length earlier.now)) (scale (neg_ℚ one_ℚ) (form (named ts of))) (meaning negation)) }
{
    let minus_one = Fraction::ratio(alloc, -1, 1)?;
    let negation = multiple_of(alloc, &earlier[of], &minus_one)?;
    Ok(negation)
}

/// The form of the product of two earlier names, whose own name comes next.
fn product_of(
    alloc: Global,
    earlier: &[ExactForm],
    left: Name,
    right: Name,
) -> Result<ExactForm, AllocError>
    requires left { left < length earlier.now }
    requires right { right < length earlier.now }
    ensures { IfOk result (λ product. (ts : List Term) → HasOneName ts → length earlier.now < length ts → AreForms ts earlier.now → IsExact ts (suc (length earlier.now)) (times (named ts (length earlier.now)) (form (named ts left)) (form (named ts right))) (meaning product)) }
{
    let product = product(alloc, earlier.len(), &earlier[left], &earlier[right])?;
    Ok(product)
}

/// The form of the quotient of an earlier name by a term of this head, whose own name comes next.
fn quotient_of(
    alloc: Global,
    earlier: &[ExactForm],
    of: Name,
    by: NodeHead,
) -> Result<ExactForm, AllocError>
    requires { of < length earlier.now }
    ensures { IfOk result (λ quotient. (ts : List Term) (u : Term) → IsHeadOf by u → AreForms ts earlier.now → IsExact ts (suc (length earlier.now)) (over (named ts (length earlier.now)) (form (named ts of)) u) (meaning quotient)) }
{
    let quotient = quotient(alloc, earlier.len(), &earlier[of], by)?;
    Ok(quotient)
}

/// The form of the name that comes next, by the rule of its application.
fn applied(
    alloc: Global,
    store: &Store,
    earlier: &[ExactForm],
    computed: Computed,
) -> Result<ExactForm, AllocError>
    requires below { IsBelow (length earlier.now) computed }
    requires inside { length earlier.now < length store.now.nodes }
    requires store { IsStore store.now.signature store.now.nodes }
    requires forms { AreForms (terms (shapes store.now.nodes)) earlier.now }
    ensures { let ts = terms (shapes store.now.nodes) in let n = length earlier.now in IfOk result (λ f. IsExact ts (suc n) (ruled (named ts n) (standing_for (with_form ts) computed)) (meaning f)) }
{
    match computed {
        Computed::Opaque => {
            let whole = single(alloc, earlier.len())?;
            Ok(whole)
        }
        Computed::Sum(left, right) => {
            let added = sum(alloc, earlier, left, right)?;
            Ok(added)
        }
        Computed::Difference(left, right) => {
            let apart = difference(alloc, earlier, left, right)?;
            Ok(apart)
        }
        Computed::Negation(of) => {
            let negated = negation(alloc, earlier, of)?;
            Ok(negated)
        }
        Computed::Product(left, right) => {
            let product = product_of(alloc, earlier, left, right)?;
            Ok(product)
        }
        Computed::Quotient(of, by) => {
            let divisor = store.node(by);
            let quotient = quotient_of(alloc, earlier, of, divisor.head)?;
            Ok(quotient)
        }
    }
}

/// The form of the name that comes next.
fn form_of(alloc: Global, store: &Store, earlier: &[ExactForm]) -> Result<ExactForm, AllocError>
    requires inside { length earlier.now < length store.now.nodes }
    requires store { IsStore store.now.signature store.now.nodes }
    requires forms { AreForms (terms (shapes store.now.nodes)) earlier.now }
    ensures { let ts = terms (shapes store.now.nodes) in let n = length earlier.now in IfOk result (λ f. IsExact ts (suc n) (form (named ts n)) (meaning f)) }
{
    let node = store.node(earlier.len());
    match node.head {
        NodeHead::Num { top, bottom } => {
            let constant = numeral(alloc, top, bottom)?;
            Ok(number(alloc, constant))
        }
        NodeHead::Fresh(_) => {
            let fresh = single(alloc, earlier.len())?;
            Ok(fresh)
        }
        NodeHead::Of(head) => {
            let computed = computed_by(head, node.args.as_slice());
            let whole = applied(alloc, store, earlier, computed)?;
            Ok(whole)
        }
    }
}

impl Forms {
    /// The forms of no name.
    pub fn new(alloc: Global) -> Forms
        ensures none { result.forms ≡ [] }
        ensures fits { (ts : List Term) → AreForms ts result.forms }
    {
        Forms {
            forms: List::new(alloc),
        }
    }

    /// Takes in the store's names that it doesn't have, each once; refused for want of memory alone,
    /// and then it may have taken in some.
    pub fn take_in(&mut self, alloc: Global, store: &Store) -> Result<(), AllocError>
        requires { AreForms (terms (shapes store.now.nodes)) self.old.forms }
        ensures fits { AreForms (terms (shapes store.now.nodes)) self.new.forms }
        ensures all { OnOk result (length self.new.forms ≡ length store.now.nodes) }
        ensures kept { IsFront self.old.forms self.new.forms }
    {
        let end = store.len();
        'names: while self.forms.len() < end {
            let form = form_of(alloc, store, self.forms.as_slice())?;
            self.forms.push(form)?;
        }
        Ok(())
    }

    /// Whether the linear form of a name's term is a number, exactly, where the name was taken in.
    pub fn is_constant(&self, name: Name) -> bool
        requires { name < length self.now.forms }
        ensures { (ts : List Term) → HasOneName ts → AreForms ts self.now.forms → IsTrue result ↔ (is_number (form (named ts name)) ≡ true) }
    {
        let forms = self.forms.as_slice();
        let form = &forms[name];
        form.is_number()
    }
}
