//! The search. The steps are stated, and only the loop over them is written.
ghost use Rattle.std.specs.Prelude.{◌≡◌, ◌<◌, ◌≤◌, ◌+◌, ◌-◌, ◌∷◌, ◌++◌, [], ℕ, List, length, map, true, false, None, Ok, Err, OnOk, OnErr, IfOk, MatchBool, MatchOption};
ghost use Rattle.ae_core.specs.declared.formulas.Formula.{Formula};
ghost use Rattle.ae_core.specs.declared.proofs.Block.{Block};
ghost use Rattle.ae_core.specs.declared.proofs.ClauseLine.TheVariants.{Rup};
ghost use Rattle.ae_rules.specs.Clauses.{Clause, opposite};
ghost use Rattle.ae_rules.specs.Derivations.{AreAllowed, IsContradictory, clause_ok};
ghost use Rattle.ae_core.specs.declared.problems.Problem.{Problem};
ghost use Rattle.ae_explain.specs.Trail.{clause, AreFalse};
ghost use Rattle.ae_journal.specs.Journals.{counted_in, live};
ghost use Rattle.ae_journal.specs.Licences.{IsLicensed};
ghost use Rattle.ae_journal.specs.declared.answers.WideAt.{WideAt};
ghost use Rattle.ae_theory.specs.declared.theory.Fail.TheVariants.{Steps as OutOfSteps, Number};
ghost use Rattle.ae_theory.specs.declared.theory.Outcome.TheVariants.{Complete, Conflict};
ghost use Rattle.ae_core.specs.declared.proofs.ClauseLine.{ClauseLine};
ghost use Rattle.ae_sat.specs.declared.run.SatEnd.TheVariants.{Refuted, Open};
ghost use Rattle.ae_sat.specs.declared.run.Found.TheVariants.{Nothing, Contradiction};
ghost use Rattle.ae_sat.specs.declared.run.Found.TheVariants as finding;
ghost use Rattle.ae_propagation.specs.Settled.{HasTrue, IsQuiet, last_level};
ghost use Rattle.ae_sat.specs.Standing.{IsOneOf, HasRows};
ghost use Rattle.ae_sat.specs.Search.{IsAlive, IsStated, IsLawfulState, NotesLegally, EndsEmpty, IsOpen, IsLearnt, HasParts, AllAmong, Progresses, Keeps, AddsLearnt, Brings};
ghost use Rattle.ae_sat.specs.Apart.{IsFresh};
ghost use Rattle.ae_sat.specs.Inner.Steps.{Enlarges, IsIdle};
ghost use Rattle.ae_sat.specs.Lines.{AddsEquationsOver};
ghost use Rattle.ae_journal.specs.Standing.{Setting};
ghost use Rattle.ae_theory.specs.Names.{IsNamedBy, terms_in};
ghost use Rattle.std.specs.List.{AllByRecursion};
ghost use Rattle.ae_rules.specs.Built.{IsBuiltEquation};

use crate::choose::choose;
use crate::derive::{derive, push_line};
use crate::solver::{Solver, note};
use ae_core::copies::copy_clause;
use ae_core::proofs::{Block, ClauseLine};
use ae_explain::Learnt;
use ae_journal::journal::Journal;
use ae_journal::lines::Line;
use ae_propagation::settle::Settled;
use ae_rules::literals::opposites;
use ae_search_options::picks::Pick;
use ae_store::store::Store;
use ae_theory::theory::{Explained, Fail, Outcome, Theory};

/// How a search ends.
#[derive(Clone, Copy, Debug)]
pub enum SatEnd {
    /// The clauses can't hold together.
    Refuted,
    /// Each clause has a true literal, and the theory has nothing left to do.
    Open,
}

/// What propagation finds.
#[derive(Drop)]
pub enum Found {
    Nothing,
    /// The clause is false.
    Clause(usize),
    /// The literals of the block's hypotheses are true.
    Contradiction(Block),
}

impl<T: Theory + Drop> Solver<T>
where
    T::Mark: Drop,
{
    /// The first clause without a true literal.
    fn open_clause(&self) -> Option<usize>
        ensures { MatchOption result ((k : ℕ) → k < length self.now.propagation.clauses → HasTrue self.now.propagation.trail (clause self.now.propagation.clauses k))
            (λ k. (k < length self.now.propagation.clauses) × ¬ HasTrue self.now.propagation.trail (clause self.now.propagation.clauses k)) }
    {
        for k in 0..self.propagation.count() {
            if !self.propagation.is_satisfied(k) {
                return Some(k);
            }
        }
        None
    }

    /// Saturates the theory, which was told all atoms of the trail.
    fn saturate(&mut self, store: &Store, journal: &mut Journal) -> Result<Outcome, Fail>
        requires alive { IsAlive T.fits T.assumed T.fits_mark T.in_step store.now self.old.theory self.old.marks.items self.old.propagation.trail self.old.propagation.clauses self.old.handed self.old.expanded journal.old.lines }
        requires told { self.old.handed ≡ length self.old.propagation.trail }
        ensures alive { OnOk result (IsAlive T.fits T.assumed T.fits_mark T.in_step store.now self.new.theory self.new.marks.items self.new.propagation.trail self.new.propagation.clauses self.new.handed self.new.expanded journal.new.lines) }
        // Each noted line is legal.
        ensures legal { (setting : Setting) (bound : ℕ) (lines : List ClauseLine) → IsNamedBy setting store.now journal.old.lines → IsLawfulState setting self.old.propagation.trail self.old.propagation.clauses self.old.expanded lines journal.old.lines →
            NotesLegally setting bound journal.old.lines journal.new.lines × IsLawfulState setting self.new.propagation.trail self.new.propagation.clauses self.new.expanded lines journal.new.lines }
        ensures complete { result ≡ Ok Complete → T.is_complete self.new.theory store.now }
        ensures conflict { (k : ℕ) → result ≡ Ok (Conflict k) → T.own_conflict self.new.theory k }
        ensures steps { result ≡ Err OutOfSteps → counted_in journal.new.lines ≡ journal.new.limit }
        ensures budget { (n : ℕ) → T.may_note self.old.theory store.now n → counted_in journal.new.lines ≤ counted_in journal.old.lines + n }
        ensures budget_left { result ≡ Err OutOfSteps → (n : ℕ) → T.may_note self.old.theory store.now n → counted_in journal.new.lines < counted_in journal.old.lines + n }
        // A width that stops it is licensed.
        ensures number { (wide : WideAt) → result ≡ Err (Number wide) → (setting : Setting) (lines : List ClauseLine) → IsNamedBy setting store.now journal.old.lines → IsLawfulState setting self.old.propagation.trail self.old.propagation.clauses self.old.expanded lines journal.old.lines →
            IsLicensed setting journal.new.lines wide }
        ensures journal { Keeps journal.old journal.new }
        ensures trail { self.new.propagation.trail ≡ self.old.propagation.trail }
        ensures clauses { self.new.propagation.clauses ≡ self.old.propagation.clauses }
        ensures places { self.new.places ≡ self.old.places }
        ensures handed { self.new.handed ≡ self.old.handed }
        ensures expanded { self.new.expanded ≡ self.old.expanded }
    {
        self.theory.saturate(self.alloc, store, journal)
    }

    /// Propagates, attaches the rows of true literals, tells the theory and saturates it, until nothing is left to do or a clause is false.
    fn propagate(
        &mut self,
        store: &Store,
        journal: &mut Journal,
        lines: &mut Vec<ClauseLine>,
    ) -> Result<Found, Fail>
        requires alive { IsAlive T.fits T.assumed T.fits_mark T.in_step store.now self.old.theory self.old.marks.items self.old.propagation.trail self.old.propagation.clauses self.old.handed self.old.expanded journal.old.lines }
        ensures alive { OnOk result (IsAlive T.fits T.assumed T.fits_mark T.in_step store.now self.new.theory self.new.marks.items self.new.propagation.trail self.new.propagation.clauses self.new.handed self.new.expanded journal.new.lines) }
        ensures stated { (p : Problem) (g : ℕ) → p.signature ≡ store.now.signature → IsStated p g lines.old.items self.old.propagation.clauses self.old.places →
            OnOk result (IsStated p g lines.new.items self.new.propagation.clauses self.new.places) }
        // The lines are allowed after a refusal, too.
        ensures allowed { (p : Problem) (g : ℕ) → p.signature ≡ store.now.signature → IsStated p g lines.old.items self.old.propagation.clauses self.old.places → AreAllowed p g [] lines.new.items }
        ensures legal { (setting : Setting) (bound : ℕ) → IsNamedBy setting store.now journal.old.lines → IsStated setting.problem setting.goal lines.old.items self.old.propagation.clauses self.old.places →
            IsLawfulState setting self.old.propagation.trail self.old.propagation.clauses self.old.expanded lines.old.items journal.old.lines →
            NotesLegally setting bound journal.old.lines journal.new.lines
            × OnOk result (IsLawfulState setting self.new.propagation.trail self.new.propagation.clauses self.new.expanded lines.new.items journal.new.lines) }
        ensures steps { result ≡ Err OutOfSteps → counted_in journal.new.lines ≡ journal.new.limit }
        ensures budget { (n : ℕ) → T.may_note self.old.theory store.now n → counted_in journal.new.lines ≤ counted_in journal.old.lines + n }
        ensures budget_left { result ≡ Err OutOfSteps → (n : ℕ) → T.may_note self.old.theory store.now n → counted_in journal.new.lines < counted_in journal.old.lines + n }
        // A width that stops it is licensed.
        ensures number { (wide : WideAt) → result ≡ Err (Number wide) → (setting : Setting) → IsNamedBy setting store.now journal.old.lines → IsStated setting.problem setting.goal lines.old.items self.old.propagation.clauses self.old.places →
            IsLawfulState setting self.old.propagation.trail self.old.propagation.clauses self.old.expanded lines.old.items journal.old.lines → IsLicensed setting journal.new.lines wide }
        ensures enlarges { OnOk result (Enlarges store.now self.old.propagation.clauses lines.old.items self.new.propagation.clauses lines.new.items) }
        ensures journal { Keeps journal.old journal.new }
        // No literal goes, none is decided, and each clause is an old one or a row that a true literal calls for.
        ensures brings { OnOk result (Brings self.old.propagation.trail self.old.propagation.clauses self.new.propagation.trail self.new.propagation.clauses) }
        ensures quiet { result ≡ Ok Nothing → IsQuiet self.new.propagation.trail self.new.propagation.clauses }
        ensures told { result ≡ Ok Nothing → self.new.handed ≡ length self.new.propagation.trail }
        ensures expanded { result ≡ Ok Nothing → self.new.expanded ≡ length self.new.propagation.trail }
        ensures rows { result ≡ Ok Nothing → HasRows self.new.propagation.trail (length self.new.propagation.trail) self.new.propagation.clauses }
        ensures all_true { result ≡ Ok Nothing → IsFresh self.old.propagation.trail self.old.propagation.clauses → (k : ℕ) → k < length self.new.propagation.clauses → HasTrue self.new.propagation.trail (clause self.new.propagation.clauses k) }
        ensures complete { result ≡ Ok Nothing → T.is_complete self.new.theory store.now }
        ensures found { (k : ℕ) → result ≡ Ok (finding.Clause k) → (k < length self.new.propagation.clauses) × AreFalse self.new.propagation.trail (clause self.new.propagation.clauses k) }
        // The theory's block is right, its hypotheses are true, and its lines are equations of terms built of the store's names.
        ensures block { (b : Block) → result ≡ Ok (Contradiction b) → IsContradictory store.now.signature b × (clause_ok store.now.signature b.deriv.hyps ≡ true)
            × AreFalse self.new.propagation.trail (map opposite b.deriv.hyps) × AllByRecursion (IsBuiltEquation store.now.signature (terms_in store.now)) b.deriv.lines }
    {
        match self.settle_rows(lines)? {
            Settled::Falsified(k) => return Ok(Found::Clause(k)),
            Settled::Quiet => {}
        }
        self.tell_all(store)?;
        match self.saturate(store, journal)? {
            Outcome::Complete => Ok(Found::Nothing),
            Outcome::Conflict(number) => {
                let Explained { block, tags: _tags } = self
                    .theory
                    .explain(self.alloc, store, number)?;
                Ok(Found::Contradiction(block))
            }
        }
    }

    /// Learns from a false clause, and goes back; `true` where what is learnt is empty.
    fn learn(
        &mut self,
        store: &Store,
        journal: &mut Journal,
        lines: &mut Vec<ClauseLine>,
        falsified: usize,
    ) -> Result<bool, Fail>
        requires within { falsified < length self.old.propagation.clauses }
        requires falsified { AreFalse self.old.propagation.trail (clause self.old.propagation.clauses falsified) }
        requires alive { IsAlive T.fits T.assumed T.fits_mark T.in_step store.now self.old.theory self.old.marks.items self.old.propagation.trail self.old.propagation.clauses self.old.handed self.old.expanded journal.old.lines }
        ensures alive { OnOk result (IsAlive T.fits T.assumed T.fits_mark T.in_step store.now self.new.theory self.new.marks.items self.new.propagation.trail self.new.propagation.clauses self.new.handed self.new.expanded journal.new.lines) }
        ensures stated { (p : Problem) (g : ℕ) → p.signature ≡ store.now.signature → IsStated p g lines.old.items self.old.propagation.clauses self.old.places →
            OnOk result (IsStated p g lines.new.items self.new.propagation.clauses self.new.places) }
        // The lines are allowed after a refusal, too.
        ensures allowed { (p : Problem) (g : ℕ) → p.signature ≡ store.now.signature → IsStated p g lines.old.items self.old.propagation.clauses self.old.places → AreAllowed p g [] lines.new.items }
        ensures legal { (setting : Setting) (bound : ℕ) → IsNamedBy setting store.now journal.old.lines → IsStated setting.problem setting.goal lines.old.items self.old.propagation.clauses self.old.places →
            IsLawfulState setting self.old.propagation.trail self.old.propagation.clauses self.old.expanded lines.old.items journal.old.lines →
            NotesLegally setting bound journal.old.lines journal.new.lines
            × OnOk result (IsLawfulState setting self.new.propagation.trail self.new.propagation.clauses self.new.expanded lines.new.items journal.new.lines) }
        ensures steps { result ≡ Err OutOfSteps → counted_in journal.new.lines ≡ journal.new.limit }
        ensures never_wide { (wide : WideAt) → ¬ (result ≡ Err (Number wide)) }
        ensures enlarges { OnOk result (Enlarges store.now self.old.propagation.clauses lines.old.items self.new.propagation.clauses lines.new.items) }
        ensures journal { Keeps journal.old journal.new }
        // Where no decision stands, nothing is noted.
        ensures base { last_level self.old.propagation.trail ≡ 0 → IsIdle journal.old journal.new result }
        ensures refuted { result ≡ Ok true → EndsEmpty lines.new.items }
        ensures learnt { result ≡ Ok false → Progresses journal.old journal.new }
    {
        let learnt = derive(
            self.alloc,
            &self.propagation,
            self.places.as_slice(),
            lines,
            falsified,
        )?;
        self.take_in(store, journal, lines, learnt)
    }

    /// Learns from a block whose hypotheses are true, and goes back; `true` where what is learnt is empty. The block's clause is none of the clauses then.
    pub(crate) fn learn_block(
        &mut self,
        store: &Store,
        journal: &mut Journal,
        lines: &mut Vec<ClauseLine>,
        block: Block,
    ) -> Result<bool, Fail>
        requires contradictory { IsContradictory store.now.signature block }
        requires sorted { clause_ok store.now.signature block.deriv.hyps ≡ true }
        requires falsified { AreFalse self.old.propagation.trail (map opposite block.deriv.hyps) }
        requires alive { IsAlive T.fits T.assumed T.fits_mark T.in_step store.now self.old.theory self.old.marks.items self.old.propagation.trail self.old.propagation.clauses self.old.handed self.old.expanded journal.old.lines }
        ensures alive { OnOk result (IsAlive T.fits T.assumed T.fits_mark T.in_step store.now self.new.theory self.new.marks.items self.new.propagation.trail self.new.propagation.clauses self.new.handed self.new.expanded journal.new.lines) }
        ensures stated { (p : Problem) (g : ℕ) → p.signature ≡ store.now.signature → IsStated p g lines.old.items self.old.propagation.clauses self.old.places →
            OnOk result (IsStated p g lines.new.items self.new.propagation.clauses self.new.places) }
        // The lines are allowed after a refusal, too.
        ensures allowed { (p : Problem) (g : ℕ) → p.signature ≡ store.now.signature → IsStated p g lines.old.items self.old.propagation.clauses self.old.places → AreAllowed p g [] lines.new.items }
        ensures legal { (setting : Setting) (bound : ℕ) → IsNamedBy setting store.now journal.old.lines → IsStated setting.problem setting.goal lines.old.items self.old.propagation.clauses self.old.places →
            IsLawfulState setting self.old.propagation.trail self.old.propagation.clauses self.old.expanded lines.old.items journal.old.lines →
            NotesLegally setting bound journal.old.lines journal.new.lines
            × OnOk result (IsLawfulState setting self.new.propagation.trail self.new.propagation.clauses self.new.expanded lines.new.items journal.new.lines) }
        ensures steps { result ≡ Err OutOfSteps → counted_in journal.new.lines ≡ journal.new.limit }
        ensures never_wide { (wide : WideAt) → ¬ (result ≡ Err (Number wide)) }
        ensures kept { (c : Clause) → IsOneOf self.old.propagation.clauses c → OnOk result (IsOneOf self.new.propagation.clauses c) }
        ensures formulas { (fs : List Formula) → HasParts fs → AllAmong fs self.old.propagation.clauses → OnOk result (AllAmong fs self.new.propagation.clauses) }
        ensures enlarges { AllByRecursion (IsBuiltEquation store.now.signature (terms_in store.now)) block.deriv.lines →
            OnOk result (Enlarges store.now self.old.propagation.clauses lines.old.items self.new.propagation.clauses lines.new.items) }
        // The block and what is learnt from it are the last of the lines, over formulas that are there.
        ensures lines { OnOk result (AddsLearnt block self.old.propagation.clauses lines.old.items lines.new.items) }
        ensures journal { Keeps journal.old journal.new }
        // Where no decision stands, nothing is noted.
        ensures base { last_level self.old.propagation.trail ≡ 0 → IsIdle journal.old journal.new result }
        ensures refuted { result ≡ Ok true → EndsEmpty lines.new.items }
        ensures learnt { result ≡ Ok false → Progresses journal.old journal.new }
    {
        let clause = opposites(self.alloc, block.deriv.hyps.as_slice())?;
        let place = lines.len();
        let number = self.propagation.count();
        push_line(lines, ClauseLine::Block(block))?;
        self.attach(clause, place)?;
        let derived = derive(
            self.alloc,
            &self.propagation,
            self.places.as_slice(),
            lines,
            number,
        );
        self.detach();
        let learnt = derived?;
        self.take_in(store, journal, lines, learnt)
    }

    /// Notes what is learnt, goes back and attaches it; `true` where it is empty.
    fn take_in(
        &mut self,
        store: &Store,
        journal: &mut Journal,
        lines: &mut Vec<ClauseLine>,
        learnt: Learnt,
    ) -> Result<bool, Fail>
        requires learnt { (top : ℕ) × IsLearnt self.old.propagation.trail learnt top }
        requires line { (before : List ClauseLine) × (hints : List ℕ) × (lines.old.items ≡ before ++ Rup learnt.clause hints ∷ []) }
        requires alive { IsAlive T.fits T.assumed T.fits_mark T.in_step store.now self.old.theory self.old.marks.items self.old.propagation.trail self.old.propagation.clauses self.old.handed self.old.expanded journal.old.lines }
        ensures alive { OnOk result (IsAlive T.fits T.assumed T.fits_mark T.in_step store.now self.new.theory self.new.marks.items self.new.propagation.trail self.new.propagation.clauses self.new.handed self.new.expanded journal.new.lines) }
        ensures stated { (p : Problem) (g : ℕ) → p.signature ≡ store.now.signature → IsStated p g lines.old.items self.old.propagation.clauses self.old.places →
            OnOk result (IsStated p g lines.new.items self.new.propagation.clauses self.new.places) }
        // The lines are allowed after a refusal, too.
        ensures allowed { (p : Problem) (g : ℕ) → p.signature ≡ store.now.signature → IsStated p g lines.old.items self.old.propagation.clauses self.old.places → AreAllowed p g [] lines.new.items }
        ensures legal { (setting : Setting) (bound : ℕ) → IsNamedBy setting store.now journal.old.lines → IsStated setting.problem setting.goal lines.old.items self.old.propagation.clauses self.old.places →
            IsLawfulState setting self.old.propagation.trail self.old.propagation.clauses self.old.expanded lines.old.items journal.old.lines →
            NotesLegally setting bound journal.old.lines journal.new.lines
            × OnOk result (IsLawfulState setting self.new.propagation.trail self.new.propagation.clauses self.new.expanded lines.new.items journal.new.lines) }
        ensures steps { result ≡ Err OutOfSteps → counted_in journal.new.lines ≡ journal.new.limit }
        ensures never_wide { (wide : WideAt) → ¬ (result ≡ Err (Number wide)) }
        ensures enlarges { OnOk result (Enlarges store.now self.old.propagation.clauses lines.old.items self.new.propagation.clauses lines.new.items) }
        ensures lines { lines.new.items ≡ lines.old.items }
        ensures journal { Keeps journal.old journal.new }
        // Where no decision stands, nothing is noted.
        ensures base { last_level self.old.propagation.trail ≡ 0 → IsIdle journal.old journal.new result }
        ensures refuted { result ≡ Ok true → EndsEmpty lines.new.items }
        ensures learnt { result ≡ Ok false → Progresses journal.old journal.new }
    {
        let Learnt {
            clause,
            hints: _hints,
            level,
        } = learnt;
        if clause.is_empty() {
            return Ok(true);
        }
        let place = lines.len() - 1;
        let noted = copy_clause(self.alloc, clause.as_slice())?;
        note(journal, Line::Learn(noted))?;
        self.go_back(journal, level)?;
        self.attach(clause, place)?;
        Ok(false)
    }

    /// Decides a literal of a clause without a true one.
    fn branch_on(
        &mut self,
        store: &Store,
        journal: &mut Journal,
        pick: &Pick,
        lines: &mut Vec<ClauseLine>,
        number: usize,
    ) -> Result<(), Fail>
        requires within { number < length self.old.propagation.clauses }
        requires untrue { ¬ HasTrue self.old.propagation.trail (clause self.old.propagation.clauses number) }
        requires quiet { IsQuiet self.old.propagation.trail self.old.propagation.clauses }
        requires told { self.old.handed ≡ length self.old.propagation.trail }
        requires expanded { self.old.expanded ≡ length self.old.propagation.trail }
        requires alive { IsAlive T.fits T.assumed T.fits_mark T.in_step store.now self.old.theory self.old.marks.items self.old.propagation.trail self.old.propagation.clauses self.old.handed self.old.expanded journal.old.lines }
        ensures alive { OnOk result (IsAlive T.fits T.assumed T.fits_mark T.in_step store.now self.new.theory self.new.marks.items self.new.propagation.trail self.new.propagation.clauses self.new.handed self.new.expanded journal.new.lines) }
        ensures stated { (p : Problem) (g : ℕ) → p.signature ≡ store.now.signature → IsStated p g lines.old.items self.old.propagation.clauses self.old.places →
            OnOk result (IsStated p g lines.new.items self.new.propagation.clauses self.new.places) }
        // The lines are allowed after a refusal, too.
        ensures allowed { (p : Problem) (g : ℕ) → p.signature ≡ store.now.signature → IsStated p g lines.old.items self.old.propagation.clauses self.old.places → AreAllowed p g [] lines.new.items }
        ensures legal { (setting : Setting) (bound : ℕ) → IsNamedBy setting store.now journal.old.lines → IsStated setting.problem setting.goal lines.old.items self.old.propagation.clauses self.old.places →
            IsLawfulState setting self.old.propagation.trail self.old.propagation.clauses self.old.expanded lines.old.items journal.old.lines →
            NotesLegally setting bound journal.old.lines journal.new.lines
            × OnOk result (IsLawfulState setting self.new.propagation.trail self.new.propagation.clauses self.new.expanded lines.new.items journal.new.lines) }
        ensures steps { result ≡ Err OutOfSteps → counted_in journal.new.lines ≡ journal.new.limit }
        ensures never_wide { (wide : WideAt) → ¬ (result ≡ Err (Number wide)) }
        ensures enlarges { OnOk result (Enlarges store.now self.old.propagation.clauses lines.old.items self.new.propagation.clauses lines.new.items) }
        ensures journal { Keeps journal.old journal.new }
        ensures decided { OnOk result (Progresses journal.old journal.new) }
    {
        let lit = choose(
            self.alloc,
            self.propagation.trail(),
            self.propagation.clause_at(number),
            pick,
            self.turn,
        )?;
        self.turn = self.turn.wrapping_add(1);
        self.decide(journal, lit)?;
        Ok(())
    }

    /// Searches until the clauses are refuted, or each of them has a true literal. It ends for every choice that answers
    /// below its argument. It doesn't go back by itself for a given clause that came in while decisions stand: that its
    /// lines are legal is said where no given clause fires below the present level, as it is while no decision stands.
    pub fn run(
        &mut self,
        store: &Store,
        journal: &mut Journal,
        pick: &Pick,
        lines: &mut Vec<ClauseLine>,
    ) -> Result<SatEnd, Fail>
        requires alive { IsAlive T.fits T.assumed T.fits_mark T.in_step store.now self.old.theory self.old.marks.items self.old.propagation.trail self.old.propagation.clauses self.old.handed self.old.expanded journal.old.lines }
        ensures alive { OnOk result (IsAlive T.fits T.assumed T.fits_mark T.in_step store.now self.new.theory self.new.marks.items self.new.propagation.trail self.new.propagation.clauses self.new.handed self.new.expanded journal.new.lines) }
        ensures stated { (p : Problem) (g : ℕ) → p.signature ≡ store.now.signature → IsStated p g lines.old.items self.old.propagation.clauses self.old.places →
            OnOk result (IsStated p g lines.new.items self.new.propagation.clauses self.new.places) }
        // The lines are allowed after a refusal, too.
        ensures allowed { (p : Problem) (g : ℕ) → p.signature ≡ store.now.signature → IsStated p g lines.old.items self.old.propagation.clauses self.old.places → AreAllowed p g [] lines.new.items }
        ensures legal { (setting : Setting) (bound : ℕ) → IsNamedBy setting store.now journal.old.lines → IsStated setting.problem setting.goal lines.old.items self.old.propagation.clauses self.old.places →
            IsLawfulState setting self.old.propagation.trail self.old.propagation.clauses self.old.expanded lines.old.items journal.old.lines →
            NotesLegally setting bound journal.old.lines journal.new.lines
            × OnOk result (IsLawfulState setting self.new.propagation.trail self.new.propagation.clauses self.new.expanded lines.new.items journal.new.lines) }
        ensures steps { result ≡ Err OutOfSteps → counted_in journal.new.lines ≡ journal.new.limit }
        // From a fresh start over clauses that come apart no more lines are noted than the theory may note, and where one more was asked for, the theory may have noted it.
        ensures budget { (n : ℕ) → IsFresh self.old.propagation.trail self.old.propagation.clauses → T.may_note self.old.theory store.now n → counted_in journal.new.lines ≤ counted_in journal.old.lines + n }
        ensures budget_left { result ≡ Err OutOfSteps → (n : ℕ) → IsFresh self.old.propagation.trail self.old.propagation.clauses → T.may_note self.old.theory store.now n → counted_in journal.new.lines < counted_in journal.old.lines + n }
        // A width that stops it is licensed.
        ensures number { (wide : WideAt) → result ≡ Err (Number wide) → (setting : Setting) → IsNamedBy setting store.now journal.old.lines → IsStated setting.problem setting.goal lines.old.items self.old.propagation.clauses self.old.places →
            IsLawfulState setting self.old.propagation.trail self.old.propagation.clauses self.old.expanded lines.old.items journal.old.lines → IsLicensed setting journal.new.lines wide }
        // No clause goes.
        ensures kept { (c : Clause) → IsOneOf self.old.propagation.clauses c → OnOk result (IsOneOf self.new.propagation.clauses c) }
        // No formula comes in but parts of those that are there.
        ensures formulas { (fs : List Formula) → HasParts fs → AllAmong fs self.old.propagation.clauses → OnOk result (AllAmong fs self.new.propagation.clauses) }
        // The lines that come in are rows, blocks and clauses of such formulas; those of blocks are equations.
        ensures lines { (fs : List Formula) → HasParts fs → AllAmong fs self.old.propagation.clauses → OnOk result (AddsEquationsOver store.now fs lines.old.items lines.new.items) }
        ensures journal { Keeps journal.old journal.new }
        // Where no counted line was noted, no literal goes, none is decided, and each clause is an old one or a row that a true literal calls for.
        ensures still { result ≡ Ok Open → counted_in journal.new.lines ≡ counted_in journal.old.lines →
            Brings self.old.propagation.trail self.old.propagation.clauses self.new.propagation.trail self.new.propagation.clauses }
        // The empty clause is the last of the lines.
        ensures refuted { result ≡ Ok Refuted → EndsEmpty lines.new.items }
        // Each clause, and each row that a true literal calls for, has a true literal.
        ensures open_clauses { result ≡ Ok Open → IsOpen self.new.propagation.trail self.new.propagation.clauses }
        // The theory was told all atoms of the trail, and has nothing left to do.
        ensures told { result ≡ Ok Open → self.new.handed ≡ length self.new.propagation.trail }
        ensures complete { result ≡ Ok Open → T.is_complete self.new.theory store.now }
    {
        loop {
            match self.propagate(store, journal, lines)? {
                Found::Clause(k) => {
                    if self.learn(store, journal, lines, k)? {
                        return Ok(SatEnd::Refuted);
                    }
                }
                Found::Contradiction(block) => {
                    if self.learn_block(store, journal, lines, block)? {
                        return Ok(SatEnd::Refuted);
                    }
                }
                Found::Nothing => match self.open_clause() {
                    None => return Ok(SatEnd::Open),
                    Some(k) => self.branch_on(store, journal, pick, lines, k)?,
                },
            }
        }
    }
}
