//! The rows that the truth of a literal calls for.
ghost use Rattle.std.specs.Prelude.{◌≡◌, ◌+◌, ◌<◌, ◌∷◌, ◌++◌, [], ℕ, List, length, Some, None, Ok, IfOk, OnOk};
ghost use Rattle.std.specs.List.{Contains};
ghost use Rattle.ae_rules.specs.Clauses.{Clause, row};
ghost use Rattle.ae_rules.specs.Defining.{called_rows};
ghost use Rattle.ae_rules.specs.Derivations.{AreAllowed};
ghost use Rattle.ae_core.specs.declared.formulas.Formula.{Formula};
ghost use Rattle.ae_core.specs.declared.problems.Problem.{Problem};
ghost use Rattle.ae_core.specs.declared.proofs.ClauseLine.TheVariants.{Def};
ghost use Rattle.ae_explain.specs.Trail.{at, IsLawful};
ghost use Rattle.ae_journal.specs.declared.lines.Line.{Line};
ghost use Rattle.ae_store.specs.Stores.{Stored};
ghost use Rattle.ae_sat.specs.Marked.{IsRunning};
ghost use Rattle.ae_sat.specs.Standing.{IsOneOf};
ghost use Rattle.ae_sat.specs.Search.{AllNamed, IsAlive, IsStated, IsLawfulState};
ghost use Rattle.ae_sat.specs.Inner.Steps.{Continues};
ghost use Rattle.ae_propagation.specs.Settled.{Ends};
ghost use Rattle.ae_propagation.specs.declared.settle.Settled.TheVariants.{Quiet};
ghost use Rattle.ae_journal.specs.Standing.{Setting};

use crate::derive::push_line;
use crate::solver::Solver;
use ae_core::copies::copy_formula;
use ae_core::formulas::Clause;
use ae_core::proofs::ClauseLine;
use ae_propagation::settle::Settled;
use ae_rules::rows::{called_rows, row};
use ae_theory::theory::Theory;
use std::alloc::{AllocError, Global};

impl<T: Theory + Drop> Solver<T>
where
    T::Mark: Drop,
{
    /// Attaches the row of a number of the formula of a true literal, behind its line.
    pub(crate) fn attach_row(
        &mut self,
        lines: &mut Vec<ClauseLine>,
        place: usize,
        number: usize,
        clause: Clause,
    ) -> Result<(), AllocError>
        requires within { place < length self.old.propagation.trail }
        requires row { row number (at self.old.propagation.trail place).lit.formula ≡ Some clause }
        requires lawful { IsLawful self.old.propagation.trail self.old.propagation.clauses }
        requires stands { (j : ℕ) → j < length self.old.propagation.trail → (at self.old.propagation.trail j).by ≡ None → (c : Clause) × IsOneOf self.old.propagation.clauses c × Contains c (at self.old.propagation.trail j).lit }
        ensures running { (standing : List Line) → IsRunning T.assumed T.fits_mark T.in_step self.old.theory self.old.marks.items self.old.propagation.trail self.old.propagation.clauses self.old.handed standing
            → OnOk result (IsRunning T.assumed T.fits_mark T.in_step self.new.theory self.new.marks.items self.new.propagation.trail self.new.propagation.clauses self.new.handed standing) }
        ensures named { (s : Stored) → AllNamed s self.old.propagation.clauses → OnOk result (AllNamed s self.new.propagation.clauses) }
        ensures stated { (p : Problem) (g : ℕ) → IsStated p g lines.old.items self.old.propagation.clauses self.old.places → OnOk result (IsStated p g lines.new.items self.new.propagation.clauses self.new.places) }
        // The lines are allowed after a refusal, too.
        ensures allowed { (p : Problem) (g : ℕ) → IsStated p g lines.old.items self.old.propagation.clauses self.old.places → AreAllowed p g [] lines.new.items }
        ensures state { (setting : Setting) (js : List Line) → IsStated setting.problem setting.goal lines.old.items self.old.propagation.clauses self.old.places
            → IsLawfulState setting self.old.propagation.trail self.old.propagation.clauses self.old.expanded lines.old.items js →
            OnOk result (IsLawfulState setting self.new.propagation.trail self.new.propagation.clauses self.new.expanded lines.new.items js) }
        ensures line { OnOk result (lines.new.items ≡ lines.old.items ++ Def number (at self.old.propagation.trail place).lit.formula ∷ []) }
        ensures clauses { OnOk result (self.new.propagation.clauses ≡ self.old.propagation.clauses ++ clause ∷ []) }
        ensures trail { self.new.propagation.trail ≡ self.old.propagation.trail }
        ensures expanded { self.new.expanded ≡ self.old.expanded }
        ensures handed { self.new.handed ≡ self.old.handed }
        ensures theory { self.new.theory ≡ self.old.theory }
    {
        let formula = copy_formula(self.alloc, &self.propagation.lit_at(place).formula)?;
        let line = lines.len();
        push_line(
            lines,
            ClauseLine::Def {
                row: number,
                formula,
            },
        )?;
        self.attach(clause, line)?;
        Ok(())
    }

    /// Attaches the row of a number that a true literal calls for, if there is one.
    fn attach_number(
        &mut self,
        lines: &mut Vec<ClauseLine>,
        place: usize,
        number: usize,
    ) -> Result<(), AllocError>
        requires within { place < length self.old.propagation.trail }
        requires called { Contains (called_rows (at self.old.propagation.trail place).lit.positive (at self.old.propagation.trail place).lit.formula) number }
        requires alive { (store : Stored) × (js : List Line) × IsAlive T.fits T.assumed T.fits_mark T.in_step store self.old.theory self.old.marks.items self.old.propagation.trail self.old.propagation.clauses self.old.handed self.old.expanded js }
        ensures continues { OnOk result (Continues T.fits T.assumed T.fits_mark T.in_step self.old.theory self.old.marks.items self.old.propagation.trail self.old.propagation.clauses self.old.places self.old.handed self.old.expanded lines.old.items
            self.new.theory self.new.marks.items self.new.propagation.trail self.new.propagation.clauses self.new.places self.new.handed self.new.expanded lines.new.items) }
        // The lines are allowed after a refusal, too.
        ensures allowed { (p : Problem) (g : ℕ) → IsStated p g lines.old.items self.old.propagation.clauses self.old.places → AreAllowed p g [] lines.new.items }
        ensures has { (c : Clause) → row number (at self.old.propagation.trail place).lit.formula ≡ Some c → OnOk result (IsOneOf self.new.propagation.clauses c) }
        ensures still { (c : Clause) → IsOneOf self.old.propagation.clauses c → OnOk result (IsOneOf self.new.propagation.clauses c) }
        ensures trail { self.new.propagation.trail ≡ self.old.propagation.trail }
        ensures expanded { self.new.expanded ≡ self.old.expanded }
        ensures handed { self.new.handed ≡ self.old.handed }
    {
        let _size = self.propagation.len();
        let found = row(self.alloc, number, &self.propagation.lit_at(place).formula)?;
        if let Some(clause) = found {
            self.attach_row(lines, place, number, clause)?;
        }
        Ok(())
    }

    /// Attaches the rows of the next literal.
    fn expand_one(&mut self, lines: &mut Vec<ClauseLine>) -> Result<(), AllocError>
        requires left { self.old.expanded < length self.old.propagation.trail }
        requires alive { (store : Stored) × (js : List Line) × IsAlive T.fits T.assumed T.fits_mark T.in_step store self.old.theory self.old.marks.items self.old.propagation.trail self.old.propagation.clauses self.old.handed self.old.expanded js }
        ensures continues { OnOk result (Continues T.fits T.assumed T.fits_mark T.in_step self.old.theory self.old.marks.items self.old.propagation.trail self.old.propagation.clauses self.old.places self.old.handed self.old.expanded lines.old.items
            self.new.theory self.new.marks.items self.new.propagation.trail self.new.propagation.clauses self.new.places self.new.handed self.new.expanded lines.new.items) }
        // The lines are allowed after a refusal, too.
        ensures allowed { (p : Problem) (g : ℕ) → IsStated p g lines.old.items self.old.propagation.clauses self.old.places → AreAllowed p g [] lines.new.items }
        ensures next { OnOk result (self.new.expanded ≡ self.old.expanded + 1) }
    {
        let place = self.expanded;
        let _size = self.propagation.len();
        let numbers = called_rows(self.alloc, self.propagation.lit_at(place))?;
        for number in numbers.as_slice() {
            self.attach_number(lines, place, *number)?;
        }
        self.expanded = place + 1;
        Ok(())
    }

    /// Assigns the literals of unit clauses and attaches the rows of true literals, until nothing is left to do or a clause is false.
    pub(crate) fn settle_rows(&mut self, lines: &mut Vec<ClauseLine>) -> Result<Settled, AllocError>
        requires alive { (store : Stored) × (js : List Line) × IsAlive T.fits T.assumed T.fits_mark T.in_step store self.old.theory self.old.marks.items self.old.propagation.trail self.old.propagation.clauses self.old.handed self.old.expanded js }
        ensures continues { OnOk result (Continues T.fits T.assumed T.fits_mark T.in_step self.old.theory self.old.marks.items self.old.propagation.trail self.old.propagation.clauses self.old.places self.old.handed self.old.expanded lines.old.items
            self.new.theory self.new.marks.items self.new.propagation.trail self.new.propagation.clauses self.new.places self.new.handed self.new.expanded lines.new.items) }
        // The lines are allowed after a refusal, too.
        ensures allowed { (p : Problem) (g : ℕ) → IsStated p g lines.old.items self.old.propagation.clauses self.old.places → AreAllowed p g [] lines.new.items }
        ensures ends { IfOk result (λ r. Ends self.new.propagation.trail self.new.propagation.clauses r) }
        ensures expanded { result ≡ Ok Quiet → self.new.expanded ≡ length self.new.propagation.trail }
    {
        loop {
            match self.settle_trail()? {
                Settled::Falsified(k) => return Ok(Settled::Falsified(k)),
                Settled::Quiet => {}
            }
            if self.propagation.len() <= self.expanded {
                return Ok(Settled::Quiet);
            }
            self.expand_one(lines)?;
        }
    }
}
