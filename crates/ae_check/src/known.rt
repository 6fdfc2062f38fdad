//! What is kept of the lines of a proof that were allowed, so that none is looked at again.
ghost use Rattle.std.specs.Prelude.{◌≡◌, ◌↔◌, ◌++◌, ◌∷◌, ◌+◌, [], ℕ, length, IfOk, IfErr, OnOk, IsTrue};
ghost use Rattle.ae_num.specs.Forms.{IfWide};
ghost use Rattle.ae_rules.specs.Derivations as spec;
ghost use Rattle.ae_calc.specs.Reached.{Fit, FirstWide, LineReaches};
ghost use Rattle.ae_check.specs.Inner.Coding.{AreBefore};
ghost use Rattle.ae_check.specs.Inner.ConstantSets.{IsOfLines};
ghost use Rattle.ae_check.specs.Inner.Knowing.{AreReady, IsKnown};

use crate::codes::{Code, Stamp, Table, codes_of, empty_table};
use crate::constants::Constant;
use crate::gathering::{are_new, gather_line};
use crate::propagation::refutes;
use ae_calc::clause_lines::conclusion;
use ae_calc::lines::block_allowed;
use ae_core::lists::List;
use ae_core::problems::Problem;
use ae_core::proofs::ClauseLine;
use ae_num::numbers::NumFail;
use std::alloc::{AllocError, Global};
use std::collections::BTreeSet;

/// The numbers of the formulas in the clauses of earlier lines, the codes of each of these clauses, and the fresh constants of the lines.
#[derive(Drop)]
pub(crate) struct Known {
    pub(crate) table: Table,
    pub(crate) clauses: List<List<Code>>,
    pub(crate) constants: BTreeSet<Constant>,
}

/// Nothing is known of no lines.
#[tactic(auto, using(crate::proofs::Novel::set_none))]
pub(crate) fn nothing(alloc: Global) -> Known
    ensures { (p : Problem) (g : ℕ) → IsKnown p g [] result }
{
    Known {
        table: empty_table(alloc),
        clauses: List::new(alloc),
        constants: BTreeSet::new(alloc),
    }
}

/// What the rule of a line asks beside, where the line states the clause of these codes.
fn meets(
    alloc: Global,
    problem: &Problem,
    goal: usize,
    earlier: &[ClauseLine],
    line: &ClauseLine,
    codes: &[Code],
    stamps: &mut Vec<Stamp>,
    clauses: &[List<Code>],
    constants: &BTreeSet<Constant>,
) -> Result<bool, NumFail>
    requires ready { AreReady problem.now goal earlier.now line.now codes.now stamps.old.items clauses.now }
    requires constants { IsOfLines problem.now goal earlier.now constants.now }
    ensures exact { IfOk result (λ b. IsTrue b ↔ spec.Meets problem.now goal earlier.now line.now) }
    ensures fits { OnOk result (Fit (LineReaches problem.now line.now)) }
    ensures wide { IfErr result (λ fail. IfWide fail (FirstWide (LineReaches problem.now line.now))) }
    ensures size { length stamps.new.items ≡ length stamps.old.items }
    ensures before { AreBefore (length earlier.now + 1 + 1) stamps.new.items }
{
    match line {
        ClauseLine::Block(block) => block_allowed(alloc, &problem.signature, block),
        ClauseLine::Fresh { formula, first } => { Ok(are_new(alloc, constants, *first, formula)?) }
        ClauseLine::Rup { hints, .. } => Ok(refutes(
            stamps,
            earlier.len() + 1,
            codes,
            clauses,
            hints.as_slice(),
        )),
        _ => Ok(true),
    }
}

/// Whether a line is allowed after the earlier ones, of which `known` is kept. If it is, its clause is kept too.
pub(crate) fn take_line(
    alloc: Global,
    problem: &Problem,
    goal: usize,
    earlier: &[ClauseLine],
    line: &ClauseLine,
    known: &mut Known,
) -> Result<bool, NumFail>
    requires { IsKnown problem.now goal earlier.now known.old }
    ensures exact { IfOk result (λ b. IsTrue b ↔ spec.IsAllowed problem.now goal earlier.now line.now) }
    ensures fits { OnOk result (Fit (LineReaches problem.now line.now)) }
    ensures wide { IfErr result (λ fail. IfWide fail (FirstWide (LineReaches problem.now line.now))) }
    ensures known { IfOk result (λ b. IsTrue b → IsKnown problem.now goal (earlier.now ++ line.now ∷ []) known.new) }
{
    let Some(clause) = conclusion(alloc, problem, goal, line)? else {
        return Ok(false);
    };
    let codes = codes_of(alloc, &mut known.table, clause.as_slice())?;
    if !meets(
        alloc,
        problem,
        goal,
        earlier,
        line,
        codes.as_slice(),
        &mut known.table.stamps,
        known.clauses.as_slice(),
        &known.constants,
    )? {
        return Ok(false);
    }
    gather_line(alloc, &mut known.constants, line, clause.as_slice())?;
    known.clauses.push(codes)?;
    Ok(true)
}
