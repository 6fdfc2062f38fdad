//! Telling the theory what is true.
ghost use Rattle.std.specs.Prelude.{◌≡◌, ◌<◌, ◌+◌, ℕ, List, length, OnOk};
ghost use Rattle.ae_explain.specs.Trail.{at};
ghost use Rattle.ae_journal.specs.declared.lines.Line.{Line};
ghost use Rattle.ae_theory.specs.Names.{is_atom, AreNamed};
ghost use Rattle.ae_sat.specs.Marked.{IsRunning};
ghost use Rattle.ae_sat.specs.Search.{IsAlive};

use crate::solver::Solver;
use ae_core::formulas::Formula;
use ae_store::store::Store;
use ae_theory::theory::Theory;
use std::alloc::AllocError;

/// Whether a formula is an atom.
#[tactic(auto, using(crate::proofs::Atoms::atom_rules))]
fn is_an_atom(formula: &Formula) -> bool
    ensures { result ≡ is_atom formula.now }
{
    match formula {
        Formula::Eq { .. } => true,
        Formula::Lt { .. } => true,
        Formula::Le { .. } => true,
        Formula::Pred { .. } => true,
        Formula::True => false,
        Formula::False => false,
        Formula::Not(_) => false,
        Formula::And(_, _) => false,
        Formula::Or(_, _) => false,
        Formula::Xor(_, _) => false,
        Formula::Iff(_, _) => false,
        Formula::All(_) => false,
        Formula::Ex(_) => false,
    }
}

impl<T: Theory + Drop> Solver<T>
where
    T::Mark: Drop,
{
    /// Tells the theory the next literal, if it is an atom.
    pub(crate) fn tell_one(&mut self, store: &Store) -> Result<(), AllocError>
        requires left { self.old.handed < length self.old.propagation.trail }
        requires fits { T.fits self.old.theory store.now }
        requires named { AreNamed store.now (at self.old.propagation.trail self.old.handed).lit.formula }
        ensures running { (standing : List Line) → IsRunning T.assumed T.fits_mark T.in_step self.old.theory self.old.marks.items self.old.propagation.trail self.old.propagation.clauses self.old.handed standing
            → IsRunning T.assumed T.fits_mark T.in_step self.new.theory self.new.marks.items self.new.propagation.trail self.new.propagation.clauses self.new.handed standing }
        ensures told { OnOk result (self.new.handed ≡ self.old.handed + 1) }
        ensures fits { T.fits self.new.theory store.now }
        ensures budget { (n : ℕ) → T.may_note self.old.theory store.now n → T.may_note self.new.theory store.now n }
        ensures trail { self.new.propagation.trail ≡ self.old.propagation.trail }
        ensures clauses { self.new.propagation.clauses ≡ self.old.propagation.clauses }
        ensures places { self.new.places ≡ self.old.places }
        ensures expanded { self.new.expanded ≡ self.old.expanded }
    {
        let place = self.handed;
        let _size = self.propagation.len();
        let lit = self.propagation.lit_at(place);
        if !is_an_atom(&lit.formula) {
            self.handed = place + 1;
            return Ok(());
        }
        self.theory.assume(self.alloc, store, lit, place)?;
        self.handed = place + 1;
        Ok(())
    }

    /// Tells the theory all literals that are atoms.
    pub(crate) fn tell_all(&mut self, store: &Store) -> Result<(), AllocError>
        requires alive { (js : List Line) × IsAlive T.fits T.assumed T.fits_mark T.in_step store.now self.old.theory self.old.marks.items self.old.propagation.trail self.old.propagation.clauses self.old.handed self.old.expanded js }
        ensures alive { (js : List Line) → IsAlive T.fits T.assumed T.fits_mark T.in_step store.now self.old.theory self.old.marks.items self.old.propagation.trail self.old.propagation.clauses self.old.handed self.old.expanded js →
            OnOk result (IsAlive T.fits T.assumed T.fits_mark T.in_step store.now self.new.theory self.new.marks.items self.new.propagation.trail self.new.propagation.clauses self.new.handed self.new.expanded js) }
        ensures told { OnOk result (self.new.handed ≡ length self.new.propagation.trail) }
        ensures budget { (n : ℕ) → T.may_note self.old.theory store.now n → T.may_note self.new.theory store.now n }
        ensures trail { self.new.propagation.trail ≡ self.old.propagation.trail }
        ensures clauses { self.new.propagation.clauses ≡ self.old.propagation.clauses }
        ensures places { self.new.places ≡ self.old.places }
        ensures expanded { self.new.expanded ≡ self.old.expanded }
    {
        while self.handed < self.propagation.len() {
            self.tell_one(store)?;
        }
        Ok(())
    }
}
