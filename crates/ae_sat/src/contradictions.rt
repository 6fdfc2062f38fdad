//! Contradictions that are found from without, at an open state.
ghost use Rattle.std.specs.Prelude.{◌≡◌, ℕ, List, [], map, true, false, Ok, Err, OnOk};
ghost use Rattle.ae_core.specs.declared.formulas.Formula.{Formula};
ghost use Rattle.ae_core.specs.declared.problems.Problem.{Problem};
ghost use Rattle.ae_explain.specs.Trail.{AreFalse};
ghost use Rattle.ae_journal.specs.Journals.{counted_in};
ghost use Rattle.ae_journal.specs.Standing.{Setting};
ghost use Rattle.ae_journal.specs.declared.answers.WideAt.{WideAt};
ghost use Rattle.ae_rules.specs.Clauses.{Clause, opposite};
ghost use Rattle.ae_rules.specs.Derivations.{AreAllowed, IsContradictory, clause_ok};
ghost use Rattle.ae_sat.specs.Search.{AddsLearnt, AllAmong, EndsEmpty, HasParts, IsAlive, IsLawfulState, IsStated, Keeps, NotesLegally, Progresses};
ghost use Rattle.ae_sat.specs.Standing.{IsOneOf};
ghost use Rattle.ae_theory.specs.Names.{IsNamedBy};
ghost use Rattle.ae_theory.specs.declared.theory.Fail.TheVariants.{Steps as OutOfSteps, Number};

use crate::solver::Solver;
use ae_core::proofs::{Block, ClauseLine};
use ae_journal::journal::Journal;
use ae_store::store::Store;
use ae_theory::theory::{Fail, Theory};

impl<T: Theory + Drop> Solver<T>
where
    T::Mark: Drop,
{
    /// Learns from a block whose hypotheses are true, and goes back as far as what is learnt asks for. `true` where the lines end with the empty clause;
    /// then nothing is noted. `Steps` where the journal is full.
    pub fn learn_contradiction(
        &mut self,
        store: &Store,
        journal: &mut Journal,
        lines: &mut Vec<ClauseLine>,
        block: Block,
    ) -> Result<bool, Fail>
        requires contradictory { IsContradictory store.now.signature block }
        requires sorted { clause_ok store.now.signature block.deriv.hyps ≡ true }
        requires falsified { AreFalse self.old.propagation.trail (map opposite block.deriv.hyps) }
        requires alive { IsAlive T.fits T.assumed T.fits_mark T.in_step store.now self.old.theory self.old.marks.items self.old.propagation.trail self.old.propagation.clauses self.old.handed self.old.expanded journal.old.lines }
        ensures alive { OnOk result (IsAlive T.fits T.assumed T.fits_mark T.in_step store.now self.new.theory self.new.marks.items self.new.propagation.trail self.new.propagation.clauses self.new.handed self.new.expanded journal.new.lines) }
        ensures stated { (p : Problem) (g : ℕ) → p.signature ≡ store.now.signature → IsStated p g lines.old.items self.old.propagation.clauses self.old.places →
            OnOk result (IsStated p g lines.new.items self.new.propagation.clauses self.new.places) }
        // The lines are allowed after a refusal, too.
        ensures allowed { (p : Problem) (g : ℕ) → p.signature ≡ store.now.signature → IsStated p g lines.old.items self.old.propagation.clauses self.old.places → AreAllowed p g [] lines.new.items }
        // Each noted line is legal, and the next ones will be.
        ensures legal { (setting : Setting) (bound : ℕ) → IsNamedBy setting store.now journal.old.lines → IsStated setting.problem setting.goal lines.old.items self.old.propagation.clauses self.old.places →
            IsLawfulState setting self.old.propagation.trail self.old.propagation.clauses self.old.expanded lines.old.items journal.old.lines →
            NotesLegally setting bound journal.old.lines journal.new.lines
            × OnOk result (IsLawfulState setting self.new.propagation.trail self.new.propagation.clauses self.new.expanded lines.new.items journal.new.lines) }
        ensures steps { result ≡ Err OutOfSteps → counted_in journal.new.lines ≡ journal.new.limit }
        ensures never_wide { (wide : WideAt) → ¬ (result ≡ Err (Number wide)) }
        // No clause goes, and no formula comes in but parts of those that are there.
        ensures kept { (c : Clause) → IsOneOf self.old.propagation.clauses c → OnOk result (IsOneOf self.new.propagation.clauses c) }
        ensures formulas { (fs : List Formula) → HasParts fs → AllAmong fs self.old.propagation.clauses → OnOk result (AllAmong fs self.new.propagation.clauses) }
        // The block and what is learnt from it are the last of the lines, over formulas that are there.
        ensures lines { OnOk result (AddsLearnt block self.old.propagation.clauses lines.old.items lines.new.items) }
        ensures journal { Keeps journal.old journal.new }
        ensures refuted { result ≡ Ok true → EndsEmpty lines.new.items }
        // Where the search goes on, a counted line was noted.
        ensures learnt { result ≡ Ok false → Progresses journal.old journal.new }
    {
        self.learn_block(store, journal, lines, block)
    }
}
