//! The clause of a block that is opened.
ghost use Rattle.std.specs.Prelude.{◌≡◌, ◌++◌, ◌∷◌, [], ℕ, List, true, Some, OnOk};
ghost use Rattle.std.specs.List.{Contains};
ghost use Rattle.ae_block_constants.specs.declared.opened.Opened.{Opened as OpenedBlock};
ghost use Rattle.ae_brought_blocks.specs.Coming.{ComesIn};
ghost use Rattle.ae_core.specs.Sorts.{formula_ok};
ghost use Rattle.ae_core.specs.declared.formulas.Formula.{out-Formula};
ghost use Rattle.ae_core.specs.declared.formulas.Quant.{Quant as QuantOf};
ghost use Rattle.ae_core.specs.declared.problems.Problem.{Problem as ProblemOf};
ghost use Rattle.ae_core.specs.declared.proofs.ClauseLine.{ClauseLine as LineOf};
ghost use Rattle.ae_core.specs.declared.terms.Term.{Term as TermOf};
ghost use Rattle.ae_goal_names.specs.Named.{clause_terms, HasNamed};
ghost use Rattle.ae_journal.specs.States.{quant_of};
ghost use Rattle.ae_journal.specs.declared.lines.Line.{Line as JournalLine};
ghost use Rattle.ae_opening.specs.Opens.{Opens};
ghost use Rattle.ae_rules.specs.Clauses.{Clause as ClauseOf};
ghost use Rattle.ae_rules.specs.Derivations.{clause_ok};
ghost use Rattle.ae_rules.specs.Instances as instances;
ghost use Rattle.ae_searching.specs.Searching.{IsSearching};
ghost use Rattle.ae_searching.specs.Steps.{Grows, MayCome};
ghost use Rattle.ae_store.specs.Stores.{Stored};
ghost use Rattle.ae_theory.specs.Names.{terms_in};

use crate::bringing::bring_block;
use crate::generations::generation_of;
use ae_ages::entries::Aged;
use ae_core::formulas::Formula;
use ae_core::lists::{Boxed, List};
use ae_core::problems::Signature;
use ae_core::proofs::ClauseLine;
use ae_opening::{FreshLine, OpenedBlocks};
use ae_sat::solver::Solver;
use ae_searching::adding::add_line;
use ae_searching::growing::names_grow;
use ae_store::store::Store;
use ae_theory::theory::Theory;
use std::alloc::{AllocError, Global};

/// Adds the line of a block with its clause, whose terms have got names.
fn add_fresh<T: Theory + Drop>(
    solver: &mut Solver<T>,
    lines: &mut Vec<ClauseLine>,
    fresh: Boxed<FreshLine>,
) -> Result<(), AllocError>
where
    T::Mark: Drop,
    ensures searching { (p : ProblemOf) (g b level : ℕ) (s s2 : Stored) (old new : List OpenedBlock) (js : List JournalLine) → Grows p g s s2 old new js × MayCome p g s2 new lines.old.items js fresh.line fresh.clause →
        IsSearching T.fits T.assumed T.fits_mark T.in_step p g b s old level solver.old lines.old.items js →
        OnOk result (IsSearching T.fits T.assumed T.fits_mark T.in_step p g b s2 new level solver.new lines.new.items js) }
    ensures lines { OnOk result (lines.new.items ≡ lines.old.items ++ fresh.line ∷ []) }
    ensures clauses { OnOk result (solver.new.propagation.clauses ≡ solver.old.propagation.clauses ++ fresh.clause ∷ []) }
    ensures trail { solver.new.propagation.trail ≡ solver.old.propagation.trail }
{
    names_grow(solver);
    let FreshLine { line, clause } = fresh.into_inner();
    add_line(solver, lines, line, clause)?;
    Ok(())
}

/// Opens a block: what its `fresh` clause says is brought at the block's generation, or at the bound where it has none below it, and the clause is added.
pub fn add_block<T: Theory + Drop>(
    alloc: Global,
    signature: &Signature,
    blocks: &mut OpenedBlocks,
    store: &mut Store,
    ages: &mut List<Aged>,
    solver: &mut Solver<T>,
    lines: &mut Vec<ClauseLine>,
    formula: &Formula,
    bound: u32,
) -> Result<(), AllocError>
where
    T::Mark: Drop,
    requires block { (q : QuantOf) × (quant_of (out-Formula formula.now) ≡ Some q) }
    requires same { signature.now ≡ store.old.signature }
    requires sorted { (c : ClauseOf) → instances.fresh_clause formula.now blocks.old.next (out-Formula formula.now) ≡ Some c → clause_ok signature.now c ≡ true }
    requires blocks { (o : OpenedBlock) → Contains blocks.old.opened o → formula_ok signature.now o.formula ≡ true }
    requires there { (o : OpenedBlock) (c : ClauseOf) (t : TermOf) → Contains blocks.old.opened o → instances.fresh_clause o.formula o.first (out-Formula o.formula) ≡ Some c →
        Contains (clause_terms c) t → Contains (terms_in store.old) t }
    ensures comes { OnOk result (ComesIn bound formula.now blocks.old blocks.new store.old store.new ages.old ages.new lines.old.items lines.new.items solver.old.propagation.clauses solver.new.propagation.clauses) }
    // The search goes on, where it may grow so and the line may come.
    ensures searching { (p : ProblemOf) (g b level : ℕ) (js : List JournalLine) →
        ((m : ℕ) (s2 : Stored) (new : List OpenedBlock) (l : LineOf) (c : ClauseOf) → Opens formula.now blocks.old.next m blocks.old.opened new l c → HasNamed store.old s2 (clause_terms c) →
        Grows p g store.old s2 blocks.old.opened new js × MayCome p g s2 new lines.old.items js l c) →
        IsSearching T.fits T.assumed T.fits_mark T.in_step p g b store.old blocks.old.opened level solver.old lines.old.items js →
        OnOk result (IsSearching T.fits T.assumed T.fits_mark T.in_step p g b store.new blocks.new.opened level solver.new lines.new.items js) }
    ensures trail { solver.new.propagation.trail ≡ solver.old.propagation.trail }
{
    let generation = generation_of(ages.as_slice(), formula, bound);
    let fresh = bring_block(alloc, signature, blocks, store, ages, formula, generation)?;
    add_fresh(solver, lines, fresh)?;
    Ok(())
}
