//! The generation of a block.
ghost use Rattle.std.specs.Prelude.{ℕ, ◌≤◌, ◌≡◌, ◌⊎◌};
ghost use Rattle.ae_ages.specs.Ages.{HasAge};

use ae_ages::entries::{Aged, has_age};
use ae_core::formulas::Formula;

/// The least generation that the entries give a formula, or the bound where none of them is below it.
pub fn generation_of(ages: &[Aged], formula: &Formula, bound: u32) -> u32
    ensures least { (n : ℕ) → HasAge ages.now n formula.now → result ≤ n }
    ensures known { HasAge ages.now result formula.now ⊎ (result ≡ bound) }
{
    for generation in 0..bound {
        if has_age(ages, formula, generation) {
            return generation;
        }
    }
    bound
}
