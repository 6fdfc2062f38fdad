//! Bound variables, the innermost first.

ghost use Rattle.std.specs.Prelude.{◌≡◌, ◌++◌, reverse, IfOk};
ghost use Rattle.ae_elab.specs.Elaboration as rule;

use ae_core::lists::List;
use std::alloc::{AllocError, Global};

/// How many of the bound variables stand inside the one of a number.
#[tactic(auto, using(crate::proofs::VariableLaws::found, crate::proofs::VariableLaws::passed, crate::proofs::VariableLaws::ended))]
pub fn distance(bound: &[usize], variable: usize) -> usize
    ensures { result ≡ rule.distance bound.now variable }
{
    for i in 0..bound.len() {
        if variable == bound[i] {
            return i;
        }
    }
    bound.len()
}

/// The bound variables inside a block of some more.
#[tactic(auto, using(crate::proofs::VariableLaws::turned))]
pub fn inside(
    alloc: Global,
    variables: &[usize],
    bound: &[usize],
) -> Result<List<usize>, AllocError>
    ensures { IfOk result (λ xs. xs ≡ reverse variables.now ++ bound.now) }
{
    let mut all = List::new(alloc);
    for i in 0..variables.len() {
        all.push(variables[variables.len() - 1 - i])?;
    }
    let outer = List::from_slice(alloc, bound)?;
    all.append(outer)?;
    Ok(all)
}
