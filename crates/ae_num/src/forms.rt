//! Linear forms over names with one denominator: sums, multiples and substitution.

ghost use Rattle.std.specs.Prelude.{◌≡◌, None, Some, pos, true, false, [], ◌∷◌, ◌++◌, ◌<ℤ◌, ◌*ℤ◌, IfOk, OnOk, IfErr, IfSome, IfNone};
ghost use Rattle.ae_math.specs.Fractions.{ratio};
ghost use Rattle.ae_math.specs.Forms.{plus as sum_of_forms, scale as multiple, number, substitute};
ghost use Rattle.ae_num.specs.Forms.{meaning, SameMeaning, IsNormal, IsRising, Product, first_wide, IfWide, plus_steps, scale_steps, subst_steps, has_key, factor_of, others, lowest, sum_of, multiple_of, Reduced};
ghost use Rattle.ae_num.specs.Inner.Reduction.{whole_of, whole_steps};
ghost use Rattle.ae_num.specs.declared.sums.Combination.TheVariants.{Sum, Substitution, Multiple};
ghost use Rattle.ae_num.specs.Limits.{FitsLimits};
ghost use native.Mathlib.Decide.{ℕ_discrete};

use crate::numbers::{NumFail, Wide, gcd, mul};
use crate::pairs::{Pair, paired};
use crate::reduction::reduced;
use crate::sums::{Combination, combine, combine_all};
use sqlite_items::Items;
use std::alloc::{AllocError, Global};

/// A name: the number of a term in a list of terms.
pub type Name = usize;

/// A name with its factor.
#[derive(Clone, Copy, Debug, PartialEq, Eq)]
pub struct Part {
    pub key: Name,
    pub factor: i128,
}

/// The factor of one key.
#[derive(Clone, Copy)]
struct Factor {
    number: i128,
}

/// The sum of the parts and the constant, over the denominator.
///
/// In the normal form the denominator is positive, the keys rise, no factor is 0, and the greatest
/// common divisor of all numbers is 1.
#[derive(Debug, Drop)]
pub struct Lin {
    pub den: i128,
    pub parts: Items<Part>,
    pub constant: i128,
}

/// A value of a name.
#[derive(Debug, Drop)]
pub enum Value {
    /// A name that is its own value, or the value of others.
    Leaf(Name),
    /// A number over names.
    Number(Lin),
    /// The values of a record's fields, in the order of its type.
    Fields(Items<Value>),
}

/// The product of two forms' denominators.
#[tactic(auto, using(crate::proofs::StepLaws::past, crate::proofs::StepLaws::here, crate::proofs::StepLaws::fits, crate::proofs::StepLaws::leaves))]
fn common_den(left: &Lin, right: &Lin) -> Result<i128, Wide>
    ensures exact { IfOk result (λ den. den ≡ left.now.den *ℤ right.now.den) }
    ensures fits { OnOk result (first_wide (Product left.now.den right.now.den ∷ []) ≡ None) }
    ensures wide { IfErr result (λ wide. first_wide (Product left.now.den right.now.den ∷ []) ≡ Some wide) }
{
    mul(left.den, right.den)
}

/// The constants of two forms, under a key that means nothing.
fn constants(left: &Lin, right: &Lin) -> Pair
    ensures { result ≡ record { key = 0; left = left.now.constant; right = right.now.constant } }
{
    Pair {
        key: 0,
        left: left.constant,
        right: right.constant,
    }
}

/// The form that the rule makes of two, over the product of their denominators.
fn whole(alloc: Global, left: &Lin, right: &Lin, rule: Combination) -> Result<Lin, NumFail>
    requires left { IsRising left.now.parts }
    requires right { IsRising right.now.parts }
    ensures exact { IfOk result (λ form. form ≡ whole_of rule left.now right.now) }
    ensures fits { OnOk result (first_wide (whole_steps rule left.now right.now) ≡ None) }
    ensures wide { IfErr result (λ fail. IfWide fail (λ wide. first_wide (whole_steps rule left.now right.now) ≡ Some wide)) }
{
    let pairs = paired(alloc, left.parts.as_slice(), right.parts.as_slice())?;
    let den = common_den(left, right)?;
    let parts = combine_all(alloc, pairs.as_slice(), rule)?;
    let constant = combine(constants(left, right), rule)?;
    Ok(Lin {
        den,
        parts,
        constant,
    })
}

/// The form 0.
#[tactic(auto, using(crate::proofs::NormalLaws::zero_normal))]
pub fn zero(alloc: Global) -> Lin
    ensures form { result ≡ record { den = pos 1; parts = []; constant = pos 0 } }
    ensures normal { IsNormal result }
{
    Lin {
        den: 1,
        parts: Items::new(alloc),
        constant: 0,
    }
}

/// The number `top / bottom`, in the normal form.
pub fn fraction(alloc: Global, top: i128, bottom: i128) -> Lin
    requires bottom { pos 0 <ℤ bottom }
    requires top_within { FitsLimits top }
    requires bottom_within { FitsLimits bottom }
    ensures form { result ≡ lowest (record { den = bottom; parts = []; constant = top }) }
    ensures normal { IsNormal result }
    ensures meaning { SameMeaning (meaning result) (number (ratio top bottom)) }
{
    let divisor = gcd(bottom, top);
    Lin {
        den: bottom / divisor,
        parts: Items::new(alloc),
        constant: top / divisor,
    }
}

/// The form 1.
#[tactic(auto, using(crate::proofs::NormalLaws::one_normal))]
pub fn one(alloc: Global) -> Lin
    ensures form { result ≡ record { den = pos 1; parts = []; constant = pos 1 } }
    ensures normal { IsNormal result }
{
    Lin {
        den: 1,
        parts: Items::new(alloc),
        constant: 1,
    }
}

/// The form that is one name.
#[tactic(auto, using(crate::proofs::NormalLaws::single_normal))]
pub fn single(alloc: Global, key: Name) -> Result<Lin, AllocError>
    ensures form { IfOk result (λ form. form ≡ record { den = pos 1; parts = record { key = key; factor = pos 1 } ∷ []; constant = pos 0 }) }
    ensures normal { IfOk result (λ form. IsNormal form) }
{
    let mut parts = Items::new(alloc);
    parts.push(Part { key, factor: 1 })?;
    Ok(Lin {
        den: 1,
        parts,
        constant: 0,
    })
}

/// The form that the rule makes of two, in the normal form.
fn made(alloc: Global, left: &Lin, right: &Lin, rule: Combination) -> Result<Lin, NumFail>
    requires left { IsRising left.now.parts }
    requires right { IsRising right.now.parts }
    requires left_den { pos 0 <ℤ left.now.den }
    requires right_den { pos 0 <ℤ right.now.den }
    ensures exact { IfOk result (λ form. Reduced (whole_of rule left.now right.now) form) }
    ensures form { IfOk result (λ form. form ≡ lowest (whole_of rule left.now right.now)) }
    ensures normal { IfOk result (λ form. IsNormal form) }
    ensures fits { OnOk result (first_wide (whole_steps rule left.now right.now) ≡ None) }
    ensures wide { IfErr result (λ fail. IfWide fail (λ wide. first_wide (whole_steps rule left.now right.now) ≡ Some wide)) }
{
    let form = whole(alloc, left, right, rule)?;
    Ok(reduced(alloc, &form)?)
}

/// The sum of two forms in the normal form, in the normal form.
///
/// `Wide` comes exactly where a stated product or sum leaves the limits, with the first such pair.
/// Stated are, for `left = (P + k) / d` and `right = (Q + l) / e`: the product of `d` and `e`; for
/// each key, rising, those of `P[key] * e + Q[key] * d`; those of `k * e + l * d`.
pub fn plus(alloc: Global, left: &Lin, right: &Lin) -> Result<Lin, NumFail>
    requires left { IsNormal left.now }
    requires right { IsNormal right.now }
    ensures exact { IfOk result (λ sum. SameMeaning (meaning sum) (sum_of_forms (meaning left.now) (meaning right.now))) }
    ensures form { IfOk result (λ sum. sum ≡ sum_of left.now right.now) }
    ensures normal { IfOk result (λ sum. IsNormal sum) }
    ensures fits { OnOk result (first_wide (plus_steps left.now right.now) ≡ None) }
    ensures wide { IfErr result (λ fail. IfWide fail (λ wide. first_wide (plus_steps left.now right.now) ≡ Some wide)) }
{
    made(alloc, left, right, sum_rule(left, right))
}

/// `left * right.den + right * left.den`.
fn sum_rule(left: &Lin, right: &Lin) -> Combination
    ensures { result ≡ Sum right.now.den left.now.den }
{
    Combination::Sum {
        by: right.den,
        other: left.den,
    }
}

/// The form `of` in the normal form times `top / bottom`, in the normal form.
///
/// `Wide` comes exactly where a stated product leaves the limits, with the first such pair. Stated
/// are, for `of = (P + k) / d`: `d * bottom`; for each key, rising, `P[key] * top`; `k * top`.
pub fn scale(alloc: Global, top: i128, bottom: i128, of: &Lin) -> Result<Lin, NumFail>
    requires bottom { pos 0 <ℤ bottom }
    requires of { IsNormal of.now }
    ensures exact { IfOk result (λ product. SameMeaning (meaning product) (multiple (ratio top bottom) (meaning of.now))) }
    ensures form { IfOk result (λ product. product ≡ multiple_of top bottom of.now) }
    ensures normal { IfOk result (λ product. IsNormal product) }
    ensures fits { OnOk result (first_wide (scale_steps top bottom of.now) ≡ None) }
    ensures wide { IfErr result (λ fail. IfWide fail (λ wide. first_wide (scale_steps top bottom of.now) ≡ Some wide)) }
{
    let divisor = zero_over(alloc, bottom);
    made(alloc, of, &divisor, product_rule(top))
}

/// The form 0 with a denominator of its own.
fn zero_over(alloc: Global, bottom: i128) -> Lin
    ensures { result ≡ record { den = bottom; parts = []; constant = pos 0 } }
{
    Lin {
        den: bottom,
        parts: Items::new(alloc),
        constant: 0,
    }
}

/// `left * top`.
fn product_rule(top: i128) -> Combination
    ensures { result ≡ Multiple top }
{
    Combination::Multiple { by: top }
}

/// The form `into` with the form `by` put for a name that `by` doesn't have, all in the normal form.
///
/// `Wide` comes exactly where a stated product or sum leaves the limits, with the first such pair.
/// Stated are, for `into = (P + k) / d`, `by = (Q + l) / e` and the factor `c` of the key in P: the
/// product of `d` and `e`; for each other key, rising, those of `P[y] * e + c * Q[y]`; those of
/// `k * e + c * l`. Nothing is stated where `into` lacks the key: the answer is then `into`.
pub fn subst(alloc: Global, into: &Lin, key: Name, by: &Lin) -> Result<Lin, NumFail>
    requires into { IsNormal into.now }
    requires by { IsNormal by.now }
    requires absent { has_key by.now.parts key ≡ false }
    ensures exact { IfOk result (λ form. SameMeaning (meaning form) (substitute ℕ_discrete (meaning into.now) key (meaning by.now))) }
    ensures normal { IfOk result (λ form. IsNormal form) }
    ensures fits { OnOk result (first_wide (subst_steps into.now key by.now) ≡ None) }
    ensures wide { IfErr result (λ fail. IfWide fail (λ wide. first_wide (subst_steps into.now key by.now) ≡ Some wide)) }
{
    let rest = without(alloc, into, key)?;
    let Some(factor) = factor_at(into.parts.as_slice(), key) else {
        return Ok(rest);
    };
    made(alloc, &rest, by, substitution_rule(by, factor))
}

/// The factor of a key, where a part has it.
fn factor_at(parts: &[Part], key: Name) -> Option<Factor>
    ensures some { IfSome result (λ factor. (has_key parts.now key ≡ true) × (factor.number ≡ factor_of parts.now key)) }
    ensures none { IfNone result (has_key parts.now key ≡ false) }
{
    for part in parts {
        if part.key == key {
            return Some(Factor {
                number: part.factor,
            });
        }
    }
    None
}

/// Adds a part at the end, where it has another key.
#[tactic(auto, using(crate::proofs::KeyLaws::others_push))]
fn push_other(parts: &mut Items<Part>, part: Part, key: Name) -> Result<(), AllocError>
    ensures { OnOk result (parts.new ≡ parts.old ++ others (part ∷ []) key) }
{
    if part.key != key {
        parts.push(part)?;
    }
    Ok(())
}

/// The form without a key.
fn without(alloc: Global, form: &Lin, key: Name) -> Result<Lin, AllocError>
    ensures { IfOk result (λ rest. rest ≡ record form.now { parts = others form.now.parts key }) }
{
    let mut parts = Items::new(alloc);
    for part in form.parts.as_slice() {
        push_other(&mut parts, *part, key)?;
    }
    Ok(Lin {
        den: form.den,
        parts,
        constant: form.constant,
    })
}

/// `left * by.den + factor * right`.
fn substitution_rule(by: &Lin, factor: Factor) -> Combination
    ensures { result ≡ Substitution by.now.den factor.number }
{
    Combination::Substitution {
        by: by.den,
        factor: factor.number,
    }
}
