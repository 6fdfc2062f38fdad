//! The numbers of a form that is made of two, key by key.

ghost use Rattle.std.specs.Prelude.{◌≡◌, None, Some, ◌*ℤ◌, ◌+ℤ◌, ◌∷◌, ◌++◌, [], IfOk, OnOk, IfErr};
ghost use Rattle.ae_num.specs.Forms.{crossed, first_wide, IfWide};
ghost use Rattle.ae_num.specs.Inner.Pairs.{kept, combined, outcome_of, steps_of, all_steps};

use crate::forms::Part;
use crate::numbers::{NumFail, Wide, add, mul};
use crate::pairs::Pair;
use sqlite_items::Items;
use std::alloc::{AllocError, Global};

/// How the numbers of two forms make one.
#[derive(Clone, Copy)]
pub enum Combination {
    /// `left * by + right * other`
    Sum { by: i128, other: i128 },
    /// `left * by + factor * right`
    Substitution { by: i128, factor: i128 },
    /// `left * by`
    Multiple { by: i128 },
}

/// `first * by + second * other`.
#[tactic(auto, using(crate::proofs::StepLaws::second_wide, crate::proofs::StepLaws::sum_wide, crate::proofs::StepLaws::all_fit))]
fn sum_of_products(first: i128, by: i128, second: i128, other: i128) -> Result<i128, Wide>
    ensures exact { IfOk result (λ sum. sum ≡ first *ℤ by +ℤ second *ℤ other) }
    ensures fits { OnOk result (first_wide (crossed first by second other) ≡ None) }
    ensures wide { IfErr result (λ wide. first_wide (crossed first by second other) ≡ Some wide) }
{
    let product = mul(first, by)?;
    let other_product = mul(second, other)?;
    add(product, other_product)
}

/// The number that the rule makes of a pair.
#[tactic(auto, using(crate::proofs::StepLaws::past, crate::proofs::StepLaws::fits))]
pub fn combine(pair: Pair, rule: Combination) -> Result<i128, Wide>
    ensures exact { IfOk result (λ number. number ≡ outcome_of rule pair.left pair.right) }
    ensures fits { OnOk result (first_wide (steps_of rule pair.left pair.right) ≡ None) }
    ensures wide { IfErr result (λ wide. first_wide (steps_of rule pair.left pair.right) ≡ Some wide) }
{
    match rule {
        Combination::Sum { by, other } => sum_of_products(pair.left, by, pair.right, other),
        Combination::Substitution { by, factor } => {
            sum_of_products(pair.left, by, factor, pair.right)
        }
        Combination::Multiple { by } => mul(pair.left, by),
    }
}

/// Adds a part at the end, where its factor isn't 0.
#[tactic(auto, using(crate::proofs::SumLaws::keeping))]
fn keep(parts: &mut Items<Part>, part: Part) -> Result<(), AllocError>
    ensures { OnOk result (parts.new ≡ parts.old ++ kept part []) }
{
    if part.factor != 0 {
        parts.push(part)?;
    }
    Ok(())
}

/// The parts that the rule makes of all pairs, without those whose factor is 0.
pub fn combine_all(alloc: Global, pairs: &[Pair], rule: Combination) -> Result<Items<Part>, NumFail>
    ensures exact { IfOk result (λ parts. parts ≡ combined (outcome_of rule) pairs.now) }
    ensures fits { OnOk result (first_wide (all_steps rule pairs.now) ≡ None) }
    ensures wide { IfErr result (λ fail. IfWide fail (λ wide. first_wide (all_steps rule pairs.now) ≡ Some wide)) }
{
    let mut parts = Items::new(alloc);
    for pair in pairs {
        let factor = combine(*pair, rule)?;
        keep(
            &mut parts,
            Part {
                key: pair.key,
                factor,
            },
        )?;
    }
    Ok(parts)
}
