//! The rows of all inequalities of a trail, and what they come to.
ghost use Rattle.std.specs.Prelude.{◌≡◌, ◌++◌, ℕ, Bool, List, length, Some, Ok, Err, IfOk};
ghost use Rattle.std.specs.List.{AllByRecursion, Contains};
ghost use Rattle.ae_core.specs.declared.formulas.Lit.{Lit};
ghost use Rattle.ae_core.specs.declared.terms.Term.{Term};
ghost use Rattle.ae_agreed_rows.specs.Kept.{AreRowsOf, AreStandingLiterals, HasAllThatMay};
ghost use Rattle.ae_bound_blocks.specs.Said.{AreBuilt};
ghost use Rattle.ae_bound_rest.specs.Laws.{AreAgreed};
ghost use Rattle.ae_inequalities.specs.Held.{AreOfTags, Fits};
ghost use Rattle.ae_inequalities.specs.Points.{IsPointNumber};
ghost use Rattle.ae_inequalities.specs.Tight.{AreTightRows};
ghost use Rattle.ae_inequalities.specs.declared.answer.Ineq.TheVariants.{Point, Contradiction, Tight};
ghost use Rattle.ae_inequalities.specs.declared.rows.Row.{Row};
ghost use Rattle.ae_journal.specs.Journals.{counted_in, OnlyCombines};
ghost use Rattle.ae_journal.specs.Legal.{AreLegal};
ghost use Rattle.ae_journal.specs.Licences.{IsLicensed};
ghost use Rattle.ae_journal.specs.Standing.{Setting, value_now};
ghost use Rattle.ae_journal.specs.States.{inequality, HoldsAt};
ghost use Rattle.ae_journal.specs.Values.{minus_val, sum_in};
ghost use Rattle.ae_journal.specs.declared.answers.WideAt.{WideAt};
ghost use Rattle.ae_journal.specs.declared.lines.Line.{Line};
ghost use Rattle.ae_journal.specs.declared.systems.PointAt.{PointAt};
ghost use Rattle.ae_kept_rows.specs.Kept.{AreInStepWith, AreKeptAt, AreRowsFor, StandBeside};
ghost use Rattle.ae_opaque_numbers.specs.Opaque.{AreOpaqueNumbers};
ghost use Rattle.ae_literal_rows.specs.Beside.{IsBeside, IsTold};
ghost use Rattle.ae_literal_rows.specs.Trails.{literals_from};
ghost use Rattle.ae_num.specs.Forms.{IsNormal};
ghost use Rattle.ae_rules.specs.Derivations.{IsContradictory};
ghost use Rattle.ae_sat.specs.Marked.{atoms};
ghost use Rattle.ae_state.specs.Fitting.{FitsStore};
ghost use Rattle.ae_state.specs.Names.{assumed_in, system_now, terms_now};
ghost use Rattle.ae_theory.specs.Names.{terms_in};
ghost use Rattle.ae_theory.specs.Noting.{IsBlockOf};
ghost use Rattle.ae_theory.specs.declared.theory.Explained.{Explained};
ghost use Rattle.ae_theory.specs.declared.theory.Fail.TheVariants.{Steps, Number};

use crate::kept::{KeptRows, rows_so_far};
use ae_explain::Assigned;
use ae_inequalities::answer::Ineq;
use ae_inequalities::bounds::Bounds;
use ae_journal::journal::Journal;
use ae_literal_rows::State;
use ae_literal_rows::trails::more_rows;
use ae_store::store::Store;
use ae_theory::theory::Fail;
use std::alloc::Global;

/// What the rows of a trail come to, and the rows.
#[derive(Drop)]
pub struct Solved {
    pub found: Ineq,
    pub kept: KeptRows,
}

/// The rows of all inequalities of a trail: those that are kept with those of the literals since, or all of them made anew.
fn all_rows(
    alloc: Global,
    store: &Store,
    state: &State,
    trail: &[Assigned],
    marks: &[bool],
    lines: usize,
    kept: Option<KeptRows>,
) -> Result<Bounds, Fail>
    requires fits { FitsStore state.now store.now }
    requires taken { terms_now state.now ≡ terms_in store.now }
    requires opaque { AreOpaqueNumbers store.now.signature (system_now state.now) }
    requires told { IsTold state.now store.now trail.now }
    requires marks { length marks.now ≡ length trail.now }
    requires kept { AreKeptAt store.now trail.now lines kept }
    ensures fits { IfOk result (λ b. Fits store.now b) }
    ensures tags { IfOk result (λ b. AreOfTags (assumed_in state.now) b) }
    ensures even { IfOk result (λ b. length b.tags ≡ length b.given) }
    ensures agreed { IfOk result (λ b. (x : Setting) (js : List Line) → length js ≡ lines → StandBeside x js store.now state.now trail.now marks.now kept →
        AreRowsOf x js (literals_from trail.now 0) b.rows × AreAgreed x js b.rows × AllByRecursion (λ r. IsNormal r.lin) b.rows) }
    ensures number { (wide : WideAt) → result ≡ Err (Number wide) → (x : Setting) (js : List Line) → IsBeside x js store.now state.now → AreStandingLiterals x js (literals_from trail.now 0) → IsLicensed x js wide }
    ensures steps { ¬ (result ≡ Err Steps) }
{
    let system = state.system(alloc, store)?;
    let KeptRows {
        mut bounds,
        literals,
        lines: _lines,
    } = rows_so_far(alloc, kept, lines);
    more_rows(
        alloc,
        store,
        state,
        &system,
        trail,
        marks,
        literals,
        &mut bounds,
    )?;
    Ok(bounds)
}

/// How many lines were noted.
fn how_many(journal: &Journal) -> usize
    ensures { result ≡ length journal.now.lines }
{
    journal.lines().len()
}

/// What the inequalities of a trail come to: a point, a contradiction, or rows that hold with equality alone. The rows are kept; those of the marked literals count.
///
/// Each line that is noted is a combination. `Steps` comes only where the journal is full; `Number` is licensed where the inequalities of the trail are those that
/// may stand.
pub fn solve_rows(
    alloc: Global,
    store: &Store,
    state: &State,
    trail: &[Assigned],
    marks: &[bool],
    journal: &mut Journal,
    kept: Option<KeptRows>,
) -> Result<Solved, Fail>
    requires fits { FitsStore state.now store.now }
    requires taken { terms_now state.now ≡ terms_in store.now }
    requires opaque { AreOpaqueNumbers store.now.signature (system_now state.now) }
    requires told { IsTold state.now store.now trail.now }
    requires marks { length marks.now ≡ length trail.now }
    requires kept { AreKeptAt store.now trail.now (length journal.old.lines) kept }
    // The rows can be gone on with.
    ensures kept { IfOk result (λ r. AreRowsFor store.now trail.now r.kept) }
    ensures lines { IfOk result (λ r. r.kept.lines ≡ length journal.new.lines) }
    ensures agreed { IfOk result (λ r. (x : Setting) → StandBeside x journal.old.lines store.now state.now trail.now marks.now kept →
        AreInStepWith x journal.new.lines trail.now r.kept) }
    // Combinations were noted, each of them legal, whatever it comes to.
    ensures combines { (added : List Line) × (journal.new.lines ≡ journal.old.lines ++ added) × OnlyCombines added }
    ensures legal { (x : Setting) (bound : ℕ) → StandBeside x journal.old.lines store.now state.now trail.now marks.now kept →
        (added : List Line) × (journal.new.lines ≡ journal.old.lines ++ added) × AreLegal x bound journal.old.lines added }
    ensures limit { journal.new.limit ≡ journal.old.limit }
    // A point satisfies the inequalities of the trail.
    ensures point { (r : _) (made : List PointAt) → result ≡ Ok r → r.found ≡ Point made → (x : Setting) → StandBeside x journal.old.lines store.now state.now trail.now marks.now kept →
        (l : Lit) (s t : Term) (strict : Bool) → Contains (literals_from trail.now 0) l → inequality l ≡ Some (s, t, strict) →
        HoldsAt made strict (sum_in (minus_val (value_now x journal.new.lines s) (value_now x journal.new.lines t))) }
    ensures stand { (r : _) (made : List PointAt) → result ≡ Ok r → r.found ≡ Point made → AllByRecursion IsPointNumber made }
    // The block of a contradiction is right, and its hypotheses are literals of the trail.
    ensures contradiction { (r : _) (e : Explained) → result ≡ Ok r → r.found ≡ Contradiction e → IsContradictory store.now.signature e.block × IsBlockOf (atoms trail.now) e.block.deriv.hyps e.tags }
    ensures built { (r : _) (e : Explained) → result ≡ Ok r → r.found ≡ Contradiction e → AreBuilt store.now.signature (terms_in store.now) e.block.deriv.lines }
    ensures tight { (r : _) (tight : List Row) → result ≡ Ok r → r.found ≡ Tight tight → AreTightRows store.now r.kept.bounds tight × AllByRecursion (λ row. IsBlockOf (atoms trail.now) row.from.deriv.hyps row.from.tags) tight }
    ensures steps { result ≡ Err Steps → counted_in journal.new.lines ≡ journal.new.limit }
    ensures number { (wide : WideAt) → result ≡ Err (Number wide) → (x : Setting) → StandBeside x journal.old.lines store.now state.now trail.now marks.now kept →
        HasAllThatMay x journal.new.lines (literals_from trail.now 0) → IsLicensed x journal.new.lines wide }
{
    let lines = how_many(journal);
    let mut bounds = all_rows(alloc, store, state, trail, marks, lines, kept)?;
    let found = bounds.solve(alloc, store, journal)?;
    let lines = how_many(journal);
    Ok(Solved {
        found,
        kept: KeptRows {
            bounds,
            literals: trail.len(),
            lines,
        },
    })
}
