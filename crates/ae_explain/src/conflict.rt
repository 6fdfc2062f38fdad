//! What is learnt from a clause that is false in a trail: the first unique implication point and what it stands with.
ghost use Rattle.std.specs.Prelude.{◌≡◌, ◌≢◌, ◌++◌, ◌∷◌, [], ◌<◌, ◌≤◌, ◌==◌, false, ℕ, length, map, count_by, if◌then◌else◌, IfOk, OnOk};
ghost use Rattle.std.specs.List.{Contains};
ghost use Rattle.ae_rules.specs.Clauses.{opposite};
ghost use Rattle.ae_core.specs.declared.formulas.Lit.{Lit};
ghost use Rattle.ae_explain.specs.Trail.{IsLawful, AreFalse, IsFalse, clause};
ghost use Rattle.ae_explain.specs.Levels.{level_of, greatest_of, literals_under};
ghost use Rattle.ae_explain.specs.Hints.{Propagates};
ghost use Rattle.ae_explain.specs.Inner.Marks.{marked, kept, resolved, lits_below, hints_from, reasons};

use crate::marks::{Mark, clause_at, keep_clause, resolve};
use crate::trail::Trail;
use ae_core::copies::copy_formula;
use ae_core::formulas::{Clause, Lit};
use ae_core::lists::List;
use std::alloc::{AllocError, Global};

/// What is learnt from a false clause.
#[derive(Drop)]
pub struct Learnt {
    /// A clause that is false by the trail. Its first literal is the one of the greatest level, and the levels fall from there on.
    pub clause: Clause,
    /// The places of clauses through which unit propagation derives it, in this order.
    pub hints: List<usize>,
    /// The greatest level of its literals below their greatest one, 0 where there are none.
    pub level: usize,
}

/// The greatest level of the literals of a clause.
fn greatest_level(trail: &Trail, clause: &[Lit]) -> usize
    ensures { result ≡ greatest_of trail.now.assigned clause.now }
{
    let mut greatest = 0;
    for lit in clause {
        greatest = trail.level_of(lit).max(greatest);
    }
    greatest
}

/// The greatest level of the literals of a clause that are below a level.
fn level_under(trail: &Trail, clause: &[Lit], level: usize) -> usize
    ensures { result ≡ greatest_of trail.now.assigned (literals_under trail.now.assigned level clause.now) }
{
    let mut greatest = 0;
    for lit in clause {
        let its = trail.level_of(lit);
        if its < level {
            greatest = its.max(greatest);
        }
    }
    greatest
}

/// The opposites of the literals at kept places, the last one first.
fn kept_clause(alloc: Global, trail: &Trail, marks: &[Mark]) -> Result<Clause, AllocError>
    requires len { length marks.now ≡ length trail.now.assigned }
    ensures { IfOk result (λ c. c ≡ map opposite (lits_below trail.now.assigned marks.now (length trail.now.assigned))) }
{
    let mut clause = List::new(alloc);
    let mut place = trail.len();
    while 0 < place {
        place -= 1;
        if marks[place] == Mark::Kept {
            let lit = trail.lit_at(place);
            clause.push(Lit {
                positive: !lit.positive,
                formula: copy_formula(alloc, &lit.formula)?,
            })?;
        }
    }
    Ok(clause)
}

/// Adds the reason of a place where the place gave way to it.
fn push_hint(hints: &mut List<usize>, gave_way: bool, by: Option<usize>) -> Result<(), AllocError>
    ensures { OnOk result (hints.new ≡ hints.old ++ (if gave_way then reasons by else [])) }
{
    if gave_way {
        if let Some(number) = by {
            hints.push(number)?;
        }
    }
    Ok(())
}

/// The reasons of the places that gave way, in the order of the trail, and the last clause behind them.
fn hints_of(
    alloc: Global,
    trail: &Trail,
    marks: &[Mark],
    last: usize,
) -> Result<List<usize>, AllocError>
    requires len { length marks.now ≡ length trail.now.assigned }
    ensures { IfOk result (λ hints. hints ≡ hints_from trail.now.assigned marks.now last 0 (length trail.now.assigned)) }
{
    let mut hints = List::new(alloc);
    for place in 0..trail.len() {
        push_hint(
            &mut hints,
            marks[place] == Mark::Resolved,
            trail.by_at(place),
        )?;
    }
    hints.push(last)?;
    Ok(hints)
}

/// Learns from a clause whose literals are all false, over marks that are blank.
fn learnt_from(
    alloc: Global,
    trail: &Trail,
    clauses: &[Clause],
    falsified: usize,
    given: &[Lit],
    marks: &mut [Mark],
) -> Result<Learnt, AllocError>
    requires lawful { IsLawful trail.now.assigned clauses.now }
    requires within { falsified < length clauses.now }
    requires given { given.now ≡ clause clauses.now falsified }
    requires len { length marks.old ≡ length trail.now.assigned }
    requires blank { (p : ℕ) → marked marks.old p ≡ false }
    requires falsified { AreFalse trail.now.assigned given.now }
    ensures false_ones { IfOk result (λ r. AreFalse trail.now.assigned r.clause) }
    ensures derived { IfOk result (λ r. Propagates clauses.now r.clause r.hints) }
    ensures empty { IfOk result (λ r. greatest_of trail.now.assigned given.now ≡ 0 → r.clause ≡ []) }
    ensures one { IfOk result (λ r. let level = greatest_of trail.now.assigned given.now in
        0 < level → count_by (λ m. level_of trail.now.assigned m == level) r.clause ≡ 1) }
    ensures ground { IfOk result (λ r. (m : Lit) → Contains r.clause m → 0 < level_of trail.now.assigned m) }
    ensures highest { IfOk result (λ r. (m : Lit) → Contains r.clause m → level_of trail.now.assigned m ≤ greatest_of trail.now.assigned given.now) }
    ensures level { IfOk result (λ r. r.level ≡ greatest_of trail.now.assigned (literals_under trail.now.assigned (greatest_of trail.now.assigned r.clause) r.clause)) }
{
    let level = greatest_level(trail, given);
    let count = keep_clause(trail, given, level, marks, 0);
    resolve(trail, clauses, level, marks, count);
    let clause = kept_clause(alloc, trail, marks)?;
    let hints = hints_of(alloc, trail, marks, falsified)?;
    let greatest = greatest_level(trail, clause.as_slice());
    let level = level_under(trail, clause.as_slice(), greatest);
    Ok(Learnt {
        clause,
        hints,
        level,
    })
}

/// Learns from the clause at place `falsified`, whose literals are all false by the trail: its literals, and those
/// of level 0, give way to the reasons that made them true, from the end of the trail on, until one literal of the
/// clause's greatest level is left.
pub fn conflict_clause(
    alloc: Global,
    trail: &Trail,
    clauses: &[Clause],
    falsified: usize,
) -> Result<Learnt, AllocError>
    requires lawful { IsLawful trail.now.assigned clauses.now }
    requires within { falsified < length clauses.now }
    requires falsified { AreFalse trail.now.assigned (clause clauses.now falsified) }
    // Its literals are false by the trail.
    ensures false_ones { IfOk result (λ r. AreFalse trail.now.assigned r.clause) }
    // Unit propagation through the hints derives it.
    ensures derived { IfOk result (λ r. Propagates clauses.now r.clause r.hints) }
    // It is empty where all literals of the falsified clause are of level 0.
    ensures empty { IfOk result (λ r. greatest_of trail.now.assigned (clause clauses.now falsified) ≡ 0 → r.clause ≡ []) }
    // Otherwise exactly one of its literals is of their greatest level.
    ensures one { IfOk result (λ r. let level = greatest_of trail.now.assigned (clause clauses.now falsified) in
        0 < level → count_by (λ m. level_of trail.now.assigned m == level) r.clause ≡ 1) }
    // None of its literals is of a greater level.
    ensures highest { IfOk result (λ r. (m : Lit) → Contains r.clause m → level_of trail.now.assigned m ≤ greatest_of trail.now.assigned (clause clauses.now falsified)) }
    // None of its literals is of level 0.
    ensures ground { IfOk result (λ r. (m : Lit) → Contains r.clause m → 0 < level_of trail.now.assigned m) }
    // The level is the greatest one of its literals below their greatest one.
    ensures level { IfOk result (λ r. r.level ≡ greatest_of trail.now.assigned (literals_under trail.now.assigned (greatest_of trail.now.assigned r.clause) r.clause)) }
{
    let mut marks = vec![in alloc; Mark::Blank; trail.len()]?;
    learnt_from(
        alloc,
        trail,
        clauses,
        falsified,
        clause_at(clauses, falsified),
        &mut marks,
    )
}
