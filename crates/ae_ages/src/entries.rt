//! Quantified formulas with generations that they have.
ghost use Rattle.std.specs.Prelude.{◌≡◌, ◌∷◌, [], OnOk};
ghost use Rattle.std.specs.List.{list_any};
ghost use Rattle.ae_base.specs.Decided.{decided};
ghost use Rattle.ae_core.specs.Decided.{Formula_discrete};
ghost use Rattle.ae_ages.specs.Ages.{AreAged, gives_age};

use ae_core::copies::copy_formula;
use ae_core::equality::same_formula;
use ae_core::formulas::Formula;
use ae_core::lists::List;
use std::alloc::{AllocError, Global};

/// A quantified formula with a generation that it has.
#[derive(Drop)]
pub struct Aged {
    pub formula: Formula,
    pub generation: u32,
}

/// Whether two formulas are the same, as the definitions say it.
pub fn is_formula(left: &Formula, right: &Formula) -> bool
    ensures { result ≡ decided (Formula_discrete left.now right.now) }
{
    same_formula(left, right)
}

/// Whether an entry gives the formula at most this generation.
fn gives(entry: &Aged, formula: &Formula, generation: u32) -> bool
    ensures { result ≡ gives_age formula.now generation entry.now }
{
    entry.generation <= generation && is_formula(&entry.formula, formula)
}

/// Whether one of the entries gives the formula at most this generation.
pub fn has_age(entries: &[Aged], formula: &Formula, generation: u32) -> bool
    ensures { result ≡ list_any (gives_age formula.now generation) entries.now }
{
    for entry in entries {
        if gives(entry, formula, generation) {
            return true;
        }
    }
    false
}

/// Gives the formula at most this generation.
pub fn age(
    alloc: Global,
    entries: &mut List<Aged>,
    formula: &Formula,
    generation: u32,
) -> Result<(), AllocError>
    ensures { OnOk result (AreAged generation entries.old entries.new (formula.now ∷ [])) }
{
    if has_age(entries.as_slice(), formula, generation) {
        return Ok(());
    }
    let formula = copy_formula(alloc, formula)?;
    entries.push(Aged {
        formula,
        generation,
    })
}
