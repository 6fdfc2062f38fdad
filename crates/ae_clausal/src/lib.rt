//! The defining clauses that a true literal calls for.
#![tactic(auto)]

ghost use Rattle.std.specs.Prelude.{◌≡◌, ℕ, List, true, map, IfOk};
ghost use Rattle.std.specs.List.{AllByRecursion};
ghost use Rattle.ae_core.specs.Sorts.{formula_ok};
ghost use Rattle.ae_core.specs.declared.problems.Problem.{Problem};
ghost use Rattle.ae_core.specs.declared.proofs.ClauseLine.{ClauseLine};
ghost use Rattle.ae_core.specs.declared.proofs.ClauseLine.TheVariants.{Def};
ghost use Rattle.ae_rules.specs.Defining.{defining_lines};
ghost use Rattle.ae_rules.specs.Derivations.{IsAllowed};

use ae_core::copies::copy_formula;
use ae_core::formulas::{Formula, Lit};
use ae_core::lists::List;
use ae_core::proofs::ClauseLine;
use ae_rules::rows::called_rows;
use std::alloc::{AllocError, Global};

#[cfg(test)]
mod tests;

/// The lines `def` of rows of a formula, in their order.
fn row_lines(
    alloc: Global,
    rows: &[usize],
    formula: &Formula,
) -> Result<List<ClauseLine>, AllocError>
    ensures { IfOk result (λ ls. ls ≡ map (λ r. Def r formula.now) rows.now) }
{
    let mut lines = List::new(alloc);
    for row in rows {
        lines.push(ClauseLine::Def {
            row: *row,
            formula: copy_formula(alloc, formula)?,
        })?;
    }
    Ok(lines)
}

/// The lines of the rows that a literal calls for.
fn lines_of(alloc: Global, lit: &Lit) -> Result<List<ClauseLine>, AllocError>
    ensures { IfOk result (λ ls. ls ≡ defining_lines lit.now) }
{
    let rows = called_rows(alloc, lit)?;
    row_lines(alloc, rows.as_slice(), &lit.formula)
}

/// The lines `def` that say what the truth of a literal means for the parts of its formula, in the order of their
/// numbers: of a conjunction 1 and 2 where it is true, 3 where it is false; of a disjunction 6, or 4 and 5; of an
/// equivalence 7 and 8, or 9 and 10; of an exclusive disjunction 11 and 12, or 13 and 14; of True 15 and of False 16,
/// whatever the sign. There is none for an atom, a block of variables or a negation.
pub fn defining(alloc: Global, lit: &Lit) -> Result<List<ClauseLine>, AllocError>
    // These lines, in this order.
    ensures lines { IfOk result (λ ls. ls ≡ defining_lines lit.now) }
    // Each of them is allowed after any lines, where the formula is closed and well sorted.
    ensures allowed { IfOk result (λ ls. (p : Problem) (goal : ℕ) (earlier : List ClauseLine) → formula_ok p.signature lit.now.formula ≡ true →
        AllByRecursion (IsAllowed p goal earlier) ls) }
{
    lines_of(alloc, lit)
}
