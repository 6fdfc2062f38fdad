//! The line that derives what is learnt from a false clause.
ghost use Rattle.std.specs.Prelude.{◌≡◌, ◌<◌, ◌≤◌, ◌==◌, ◌∷◌, ◌++◌, [], ℕ, List, map, length, slice_index_or, count_by, None, IfOk, OnOk, OnErr};
ghost use Rattle.std.specs.List.{Contains};
ghost use Rattle.ae_rules.specs.Clauses.{Clause};
ghost use Rattle.ae_core.specs.declared.formulas.Lit.{Lit};
ghost use Rattle.ae_core.specs.declared.problems.Problem.{Problem};
ghost use Rattle.ae_core.specs.declared.proofs.ClauseLine.TheVariants.{Rup};
ghost use Rattle.ae_explain.specs.Trail.{at, clause, AreFalse, IsLawful};
ghost use Rattle.ae_explain.specs.Levels.{level_of, greatest_of, literals_under};
ghost use Rattle.ae_sat.specs.Standing.{IsOneOf};
ghost use Rattle.ae_sat.specs.Search.{IsStated};

use crate::propagator::Propagator;
use ae_core::copies::copy_clause;
use ae_core::lists::List;
use ae_core::proofs::ClauseLine;
use ae_explain::Learnt;
use std::alloc::{AllocError, Global};

/// The line at a number; 0 where there is none.
fn line_at(places: &[usize], number: usize) -> usize
    ensures { result ≡ slice_index_or places.now number 0 }
{
    if number < places.len() {
        places[number]
    } else {
        0
    }
}

/// The lines that state the clauses of some numbers.
fn line_numbers(
    alloc: Global,
    places: &[usize],
    numbers: &[usize],
) -> Result<List<usize>, AllocError>
    ensures { IfOk result (λ ks. ks ≡ map (λ h. slice_index_or places.now h 0) numbers.now) }
{
    let mut found = List::new(alloc);
    for number in numbers {
        found.push(line_at(places, *number))?;
    }
    Ok(found)
}

/// Puts a line behind the others.
pub(crate) fn push_line(lines: &mut Vec<ClauseLine>, line: ClauseLine) -> Result<(), AllocError>
    ensures ok { OnOk result (lines.new.items ≡ lines.old.items ++ line ∷ []) }
    ensures err { OnErr result (lines.new.items ≡ lines.old.items) }
{
    match lines.push(line) {
        Ok(()) => Ok(()),
        Err(failed) => Err(AllocError::from(failed)),
    }
}

/// Learns from a false clause, and puts the line that derives what is learnt behind the others.
pub fn derive(
    alloc: Global,
    propagation: &Propagator,
    places: &[usize],
    lines: &mut Vec<ClauseLine>,
    falsified: usize,
) -> Result<Learnt, AllocError>
    requires lawful { IsLawful propagation.now.trail propagation.now.clauses }
    requires within { falsified < length propagation.now.clauses }
    requires falsified { AreFalse propagation.now.trail (clause propagation.now.clauses falsified) }
    // Each decision is a literal of a clause.
    requires stands { (j : ℕ) → j < length propagation.now.trail → (at propagation.now.trail j).by ≡ None → (c : Clause) × IsOneOf propagation.now.clauses c × Contains c (at propagation.now.trail j).lit }
    ensures false_ones { IfOk result (λ r. AreFalse propagation.now.trail r.clause) }
    ensures empty { IfOk result (λ r. greatest_of propagation.now.trail (clause propagation.now.clauses falsified) ≡ 0 → r.clause ≡ []) }
    ensures one { IfOk result (λ r. let level = greatest_of propagation.now.trail (clause propagation.now.clauses falsified) in
        0 < level → count_by (λ m. level_of propagation.now.trail m == level) r.clause ≡ 1) }
    ensures highest { IfOk result (λ r. (m : Lit) → Contains r.clause m → level_of propagation.now.trail m ≤ greatest_of propagation.now.trail (clause propagation.now.clauses falsified)) }
    ensures level { IfOk result (λ r. r.level ≡ greatest_of propagation.now.trail (literals_under propagation.now.trail (greatest_of propagation.now.trail r.clause) r.clause)) }
    ensures line { IfOk result (λ r. (hints : List ℕ) × (lines.new.items ≡ lines.old.items ++ Rup r.clause hints ∷ [])) }
    // The line is allowed, so all stay stated.
    ensures stated { (p : Problem) (g : ℕ) → IsStated p g lines.old.items propagation.now.clauses places.now → IsStated p g lines.new.items propagation.now.clauses places.now }
{
    let learnt = propagation.learn_from(alloc, falsified)?;
    let stated = copy_clause(alloc, learnt.clause.as_slice())?;
    let hints = line_numbers(alloc, places, learnt.hints.as_slice())?;
    push_line(
        lines,
        ClauseLine::Rup {
            clause: stated,
            hints,
        },
    )?;
    Ok(learnt)
}
