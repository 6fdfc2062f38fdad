//! The solver.
ghost use Rattle.std.specs.Prelude.{◌≡◌, ◌⊎◌, ◌<◌, ◌≤◌, ◌+◌, ◌∷◌, ◌++◌, [], ℕ, List, length, None, OnOk, OnErr, IfOk, Err};
ghost use Rattle.ae_explain.specs.Trail.{place_in};
ghost use Rattle.ae_journal.specs.Journals.{counted_in, live, decisions};
ghost use Rattle.ae_journal.specs.declared.lines.Line.{Line};
ghost use Rattle.ae_journal.specs.declared.lines.Line.TheVariants as line;
ghost use Rattle.ae_theory.specs.declared.theory.Fail.TheVariants.{Steps as OutOfSteps, Number};
ghost use Rattle.ae_journal.specs.declared.answers.WideAt.{WideAt};
ghost use Rattle.ae_explain.specs.Fronts.{IsFront};
ghost use Rattle.ae_propagation.specs.Settled.{last_level};
ghost use Rattle.ae_sat.specs.Standing.{IsOneOf};
ghost use Rattle.ae_rules.specs.Clauses.{Clause};
ghost use Rattle.ae_store.specs.Stores.{Stored};
ghost use Rattle.std.specs.List.{Contains};
ghost use Rattle.ae_sat.specs.Marked.{IsRunning};
ghost use Rattle.ae_core.specs.declared.formulas.Lit.{Lit};
ghost use Rattle.ae_theory.specs.Names.{AreNamed};
ghost use Rattle.ae_sat.specs.Search.{IsAlive, IsLawfulState};
ghost use Rattle.ae_propagation.specs.Settled.{Grown, Ends};
ghost use Rattle.ae_explain.specs.Trail.{IsLawful};
ghost use Rattle.ae_core.specs.declared.formulas.Formula.{Formula};
ghost use Rattle.ae_core.specs.declared.problems.Problem.{Problem};
ghost use Rattle.ae_core.specs.declared.proofs.ClauseLine.{ClauseLine};
ghost use Rattle.ae_journal.specs.Standing.{Setting};

use crate::marking::{go_to_mark, take_mark};
use crate::propagator::Propagator;
use ae_core::copies::copy_lit;
use ae_core::formulas::{Clause, Lit};
use ae_core::lists::{Boxed, List};
use ae_explain::{Assigned, Trail};
use ae_journal::journal::{Journal, JournalFail};
use ae_journal::lines::Line;
use ae_propagation::settle::Settled;
use ae_theory::theory::{Fail, Theory};
use std::alloc::{AllocError, Global};

/// Notes a line.
pub(crate) fn note(journal: &mut Journal, line: Line) -> Result<(), Fail>
    ensures ok { OnOk result (journal.new ≡ record journal.old { lines = journal.old.lines ++ line ∷ [] }) }
    ensures err { OnErr result (journal.new ≡ journal.old) }
    ensures steps { result ≡ Err OutOfSteps → counted_in journal.old.lines ≡ journal.old.limit }
    ensures never_wide { (wide : WideAt) → ¬ (result ≡ Err (Number wide)) }
    ensures within { counted_in journal.new.lines ≤ journal.new.limit }
{
    let noted = journal.note(line);
    let _count = journal.counted();
    match noted {
        Ok(()) => Ok(()),
        Err(JournalFail::Full) => Err(Fail::Steps),
        Err(JournalFail::Memory(failed)) => Err(Fail::Memory(failed)),
    }
}

/// Drops the last number.
fn drop_last(numbers: &mut List<usize>)
    ensures { (kept : List ℕ) (last : ℕ) → numbers.old ≡ kept ++ last ∷ [] → numbers.new ≡ kept }
{
    match numbers.pop() {
        Some(_last) => {}
        None => {}
    }
}

/// A search over a theory.
#[derive(Drop)]
pub struct Solver<T: Theory + Drop>
where
    T::Mark: Drop,
{
    pub(crate) alloc: Global,
    pub(crate) theory: T,
    /// The theory's state before each decision.
    pub(crate) marks: Vec<T::Mark>,
    /// The true literals and the clauses.
    pub(crate) propagation: Propagator,
    /// The line that states each clause.
    pub(crate) places: List<usize>,
    /// How many literals' rows are among the clauses.
    pub(crate) expanded: usize,
    /// How many literals the theory was told.
    pub(crate) handed: usize,
    /// How many decisions there were.
    pub(crate) turn: usize,
}

impl<T: Theory + Drop> Solver<T>
where
    T::Mark: Drop,
{
    /// Assumes a literal without a value, as a decision.
    pub(crate) fn decide(&mut self, journal: &mut Journal, lit: Boxed<Lit>) -> Result<(), Fail>
        requires running { IsRunning T.assumed T.fits_mark T.in_step self.old.theory self.old.marks.items self.old.propagation.trail self.old.propagation.clauses self.old.handed (live journal.old.lines) }
        requires no_value { place_in self.old.propagation.trail lit.formula ≡ None }
        requires told { self.old.handed ≡ length self.old.propagation.trail }
        requires of_clause { (c : Clause) × IsOneOf self.old.propagation.clauses c × Contains c lit }
        ensures running { OnOk result (IsRunning T.assumed T.fits_mark T.in_step self.new.theory self.new.marks.items self.new.propagation.trail self.new.propagation.clauses self.new.handed (live journal.new.lines)) }
        ensures noted { OnOk result (journal.new ≡ record journal.old { lines = journal.old.lines ++ line.Decide lit ∷ [] }) }
        ensures noted_or { (journal.new ≡ journal.old) ⊎ (journal.new ≡ record journal.old { lines = journal.old.lines ++ line.Decide lit ∷ [] }) }
        ensures steps { result ≡ Err OutOfSteps → counted_in journal.new.lines ≡ journal.new.limit }
        ensures never_wide { (wide : WideAt) → ¬ (result ≡ Err (Number wide)) }
        ensures within { OnOk result (counted_in journal.new.lines ≤ journal.new.limit) }
        ensures theory { self.new.theory ≡ self.old.theory }
        ensures places { self.new.places ≡ self.old.places }
        ensures handed { self.new.handed ≡ self.old.handed }
        ensures expanded { self.new.expanded ≡ self.old.expanded }
        ensures trail { OnOk result (self.new.propagation.trail ≡ self.old.propagation.trail ++ record { lit = lit; level = last_level self.old.propagation.trail + 1; by = None } ∷ []) }
        ensures clauses { self.new.propagation.clauses ≡ self.old.propagation.clauses }
    {
        let mark = take_mark(&self.theory);
        let copy = copy_lit(self.alloc, lit.get())?;
        note(journal, Line::Decide(copy))?;
        if let Err(failed) = self.marks.push(mark) {
            return Err(Fail::Memory(AllocError::from(failed)));
        }
        let level = self.marks.len();
        self.propagation.assign(Assigned {
            lit: lit.into_inner(),
            level,
            by: None,
        })?;
        Ok(())
    }

    /// Undoes all decisions but the first few.
    pub fn go_back(&mut self, journal: &mut Journal, level: usize) -> Result<(), Fail>
        requires running { IsRunning T.assumed T.fits_mark T.in_step self.old.theory self.old.marks.items self.old.propagation.trail self.old.propagation.clauses self.old.handed (live journal.old.lines) }
        requires within { level < length self.old.marks.items }
        ensures running { OnOk result (IsRunning T.assumed T.fits_mark T.in_step self.new.theory self.new.marks.items self.new.propagation.trail self.new.propagation.clauses self.new.handed (live journal.new.lines)) }
        ensures noted { OnOk result (journal.new ≡ record journal.old { lines = journal.old.lines ++ line.Back level ∷ [] }) }
        ensures noted_or { (journal.new ≡ journal.old) ⊎ (journal.new ≡ record journal.old { lines = journal.old.lines ++ line.Back level ∷ [] }) }
        ensures steps { result ≡ Err OutOfSteps → counted_in journal.new.lines ≡ journal.new.limit }
        ensures never_wide { (wide : WideAt) → ¬ (result ≡ Err (Number wide)) }
        ensures fits { (s : Stored) → T.fits self.old.theory s → T.fits self.new.theory s }
        ensures places { self.new.places ≡ self.old.places }
        ensures told_within { OnOk result (self.new.handed ≤ length self.new.propagation.trail) }
        ensures expanded { self.new.expanded ≤ self.old.expanded }
        ensures expanded_within { OnOk result (self.new.expanded ≤ length self.new.propagation.trail) }
        ensures trail { OnOk result (IsFront self.old.propagation.trail level self.new.propagation.trail) }
        ensures clauses { self.new.propagation.clauses ≡ self.old.propagation.clauses }
    {
        note(journal, Line::Back(level))?;
        go_to_mark(&mut self.theory, &self.marks[level]);
        self.marks.truncate(level);
        self.propagation.back_to(level);
        self.handed = self.propagation.len();
        self.expanded = self.propagation.len().min(self.expanded);
        Ok(())
    }

    /// Assigns the literals of unit clauses until there is none, or a clause is false.
    pub(crate) fn settle_trail(&mut self) -> Result<Settled, AllocError>
        requires lawful { IsLawful self.old.propagation.trail self.old.propagation.clauses }
        requires told { self.old.handed ≤ length self.old.propagation.trail }
        requires expanded { self.old.expanded ≤ length self.old.propagation.trail }
        ensures running { (standing : List Line) → IsRunning T.assumed T.fits_mark T.in_step self.old.theory self.old.marks.items self.old.propagation.trail self.old.propagation.clauses self.old.handed standing
            → IsRunning T.assumed T.fits_mark T.in_step self.new.theory self.new.marks.items self.new.propagation.trail self.new.propagation.clauses self.new.handed standing }
        ensures state { (setting : Setting) (ks : List ClauseLine) (js : List Line) → IsLawfulState setting self.old.propagation.trail self.old.propagation.clauses self.old.expanded ks js →
            IsLawfulState setting self.new.propagation.trail self.new.propagation.clauses self.new.expanded ks js }
        ensures grown { Grown self.old.propagation.trail self.new.propagation.trail }
        ensures ends { IfOk result (λ r. Ends self.new.propagation.trail self.new.propagation.clauses r) }
        ensures clauses { self.new.propagation.clauses ≡ self.old.propagation.clauses }
        ensures places { self.new.places ≡ self.old.places }
        ensures theory { self.new.theory ≡ self.old.theory }
        ensures handed { self.new.handed ≡ self.old.handed }
        ensures expanded { self.new.expanded ≡ self.old.expanded }
        ensures told_still { self.new.handed ≤ length self.new.propagation.trail }
        ensures expanded_still { self.new.expanded ≤ length self.new.propagation.trail }
    {
        self.propagation.settle()
    }

    /// Takes in a clause with the line that states it.
    pub(crate) fn attach(&mut self, clause: Clause, place: usize) -> Result<(), AllocError>
        ensures clauses { OnOk result (self.new.propagation.clauses ≡ self.old.propagation.clauses ++ clause ∷ []) }
        ensures places { OnOk result (self.new.places ≡ self.old.places ++ place ∷ []) }
        ensures theory { self.new.theory ≡ self.old.theory }
        ensures marks { self.new.marks.items ≡ self.old.marks.items }
        ensures trail { self.new.propagation.trail ≡ self.old.propagation.trail }
        ensures expanded { self.new.expanded ≡ self.old.expanded }
        ensures handed { self.new.handed ≡ self.old.handed }
    {
        self.propagation.attach(clause)?;
        self.places.push(place)?;
        Ok(())
    }

    /// Gives up the last clause and its line.
    pub(crate) fn detach(&mut self)
        ensures clauses { (kept : List Clause) (last : Clause) → self.old.propagation.clauses ≡ kept ++ last ∷ [] → self.new.propagation.clauses ≡ kept }
        ensures places { (kept : List ℕ) (last : ℕ) → self.old.places ≡ kept ++ last ∷ [] → self.new.places ≡ kept }
        ensures theory { self.new.theory ≡ self.old.theory }
        ensures marks { self.new.marks.items ≡ self.old.marks.items }
        ensures trail { self.new.propagation.trail ≡ self.old.propagation.trail }
        ensures expanded { self.new.expanded ≡ self.old.expanded }
        ensures handed { self.new.handed ≡ self.old.handed }
    {
        self.propagation.detach();
        drop_last(&mut self.places);
    }

    /// A solver without clauses. The theory must have assumed nothing.
    pub fn new(alloc: Global, theory: T) -> Solver<T>
        requires nothing { T.assumed theory ≡ [] }
        // It runs beside each journal without decisions that the theory is in step with.
        ensures running { (js : List Line) → T.in_step theory (live js) → decisions (live js) ≡ [] →
            IsRunning T.assumed T.fits_mark T.in_step result.theory result.marks.items result.propagation.trail result.propagation.clauses result.handed (live js) }
        // So it meets the conditions of a search.
        ensures alive { (store : Stored) (js : List Line) → T.fits theory store → T.in_step theory (live js) → decisions (live js) ≡ [] →
            IsAlive T.fits T.assumed T.fits_mark T.in_step store result.theory result.marks.items result.propagation.trail result.propagation.clauses result.handed result.expanded js }
        ensures clauses { result.propagation.clauses ≡ [] }
        ensures places { result.places ≡ [] }
        ensures trail { result.propagation.trail ≡ [] }
        ensures theory { result.theory ≡ theory }
        ensures expanded { result.expanded ≡ 0 }
    {
        let marks = Vec::new(alloc);
        let places = List::new(alloc);
        let propagation = Propagator::new(alloc);
        Solver {
            alloc,
            theory,
            marks,
            propagation,
            places,
            expanded: 0,
            handed: 0,
            turn: 0,
        }
    }

    /// Adds a clause, which the line of this number states.
    pub fn add(&mut self, clause: Clause, line: usize) -> Result<(), AllocError>
        // The conditions of a search are kept where the clause's terms have names.
        ensures alive { (store : Stored) (js : List Line) → IsAlive T.fits T.assumed T.fits_mark T.in_step store self.old.theory self.old.marks.items self.old.propagation.trail self.old.propagation.clauses self.old.handed self.old.expanded js →
            ((l : Lit) → Contains clause l → AreNamed store l.formula) →
            OnOk result (IsAlive T.fits T.assumed T.fits_mark T.in_step store self.new.theory self.new.marks.items self.new.propagation.trail self.new.propagation.clauses self.new.handed self.new.expanded js) }
        ensures clauses { OnOk result (self.new.propagation.clauses ≡ self.old.propagation.clauses ++ clause ∷ []) }
        ensures places { OnOk result (self.new.places ≡ self.old.places ++ line ∷ []) }
        ensures err_clauses { OnErr result (self.new.propagation.clauses ≡ self.old.propagation.clauses) }
        ensures err_places { OnErr result (self.new.places ≡ self.old.places) }
        ensures theory { self.new.theory ≡ self.old.theory }
        ensures marks { self.new.marks.items ≡ self.old.marks.items }
        ensures trail { self.new.propagation.trail ≡ self.old.propagation.trail }
        ensures expanded { self.new.expanded ≡ self.old.expanded }
        ensures handed { self.new.handed ≡ self.old.handed }
    {
        self.places.push(line)?;
        match self.propagation.attach(clause) {
            Ok(()) => Ok(()),
            Err(failed) => {
                drop_last(&mut self.places);
                Err(failed)
            }
        }
    }

    /// The true literals in their order.
    pub fn trail(&self) -> &Trail
        ensures { result.now.assigned ≡ self.now.propagation.trail }
    {
        self.propagation.trail()
    }

    /// The theory.
    pub fn theory(&self) -> &T
        ensures { result.now ≡ self.now.theory }
    {
        &self.theory
    }
}
