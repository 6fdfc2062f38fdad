//! Rows with their derivations, and what they come to.
ghost use Rattle.std.specs.Prelude.{◌≡◌, ◌<◌, ◌++◌, ◌⊎◌, [], ℕ, List, Ok, Err, OnOk, OnErr, Some, length, slice_get};
ghost use Rattle.std.specs.List.{AllByRecursion};
ghost use Rattle.ae_num.specs.Forms.{IsNormal};
ghost use Rattle.ae_core.specs.declared.proofs.Ending.TheVariants.{Zero};
ghost use Rattle.ae_journal.specs.Journals.{counted_in};
ghost use Rattle.ae_journal.specs.Legal.{AreLegal};
ghost use Rattle.ae_journal.specs.Licences.{IsLicensed};
ghost use Rattle.ae_journal.specs.Standing.{Setting};
ghost use Rattle.ae_journal.specs.States.{at_point};
ghost use Rattle.ae_journal.specs.declared.answers.WideAt.{WideAt};
ghost use Rattle.ae_journal.specs.declared.lines.Line.{Line};
ghost use Rattle.ae_journal.specs.declared.systems.PointAt.{PointAt as PointAtValue};
ghost use Rattle.ae_rules.specs.Derivations.{IsContradictory};
ghost use Rattle.ae_store.specs.Stores.{Stored};
ghost use Rattle.ae_theory.specs.Names.{terms_in};
ghost use Rattle.ae_theory.specs.Noting.{IsBlockOf};
ghost use Rattle.ae_theory.specs.Tagged.{Tagged};
ghost use Rattle.ae_theory.specs.declared.theory.Explained.{Explained as ExplainedValue};
ghost use Rattle.ae_theory.specs.declared.theory.Fail.TheVariants.{Steps, Number};
ghost use Rattle.ae_bounds.specs.Combinations.{IsExtended};
ghost use Rattle.ae_bounds.specs.Findings.{NoneIsRefuted};
ghost use Rattle.ae_bound_blocks.specs.Said.{AreBuilt};
ghost use Rattle.ae_bound_points.specs.Points.{ArePositiveAt};
ghost use Rattle.ae_bound_rest.specs.Laws.{AreAgreed, AreThoseAssumed};
ghost use Rattle.ae_bound_solve.specs.Widths.{AreNotedOrNone};
ghost use Rattle.ae_inequalities.specs.declared.answer.Ineq.TheVariants.{Point, Contradiction, Tight};
ghost use Rattle.ae_inequalities.specs.declared.rows.Row.{Row as RowValue};
ghost use Rattle.ae_inequalities.specs.Points.{IsPointNumber};
ghost use Rattle.ae_inequalities.specs.Rows.{IsRightRow};
ghost use Rattle.ae_inequalities.specs.Held.{Fits, IsAdded, AreOfTags, IsMadeOfRows};
ghost use Rattle.ae_inequalities.specs.Tight.{AreTightRows};

use crate::answer::Ineq;
use crate::holding::{assume_row, solve_rows};
use crate::rows::Row;
use ae_bound_blocks::given::Given;
use ae_bounds::bounds::Bounds as Kept;
use ae_bounds::rows::Row as KeptRow;
use ae_core::lists::List;
use ae_journal::journal::Journal;
use ae_store::store::Store;
use ae_theory::theory::Fail;
use std::alloc::{AllocError, Global};
use std::marker::Model;

/// Rows with their derivations. Contracts see the kept rows, the assumed ones among them rounded where they are over integers, and what gives the assumed ones.
#[derive(Drop)]
pub struct Bounds {
    rows: Kept,
    given: List<Given>,
    tags: List<List<usize>>,
}

impl Model for Bounds {
    ghost use Rattle.std.specs.Prelude.{◌≡◌, length};
    ghost use Rattle.ae_inequalities.specs.Held.{Held, held_code};

    ghost Value = { Held };

    ghost coded = { held_code };

    ghost view = { λ b. record { rows = b.rows; given = b.given; tags = b.tags } };

    ghost invariant = { λ b. length b.tags ≡ length b.given };
}

impl Bounds {
    /// No rows. It takes no memory.
    pub fn new(alloc: Global) -> Bounds
        ensures empty { result ≡ record { rows = []; given = []; tags = [] } }
        ensures fits { (s : Stored) → Fits s result }
    {
        Bounds {
            rows: Kept::new(alloc),
            given: List::new(alloc),
            tags: List::new(alloc),
        }
    }

    /// The kept rows: the assumed ones and their combinations, in the order of entry. It takes no memory.
    pub fn rows(&self) -> &[KeptRow]
        ensures { result.now ≡ self.now.rows }
    {
        self.rows.rows()
    }

    /// The tags of the derivation of the assumed row of this number, from 0 in their order. It takes no memory.
    pub fn tags(&self, number: usize) -> &[usize]
        requires { number < length self.now.tags }
        ensures { slice_get self.now.tags number ≡ Some result.now }
    {
        let all = self.tags.as_slice();
        all[number].as_slice()
    }

    /// Adds a row. Where it is over integers it is rounded at once. Unless it `counts`, a combination that is a positive multiple of it is still noted. Refused
    /// memory leaves the rows as they were.
    pub fn assume(
        &mut self,
        alloc: Global,
        store: &Store,
        row: Row,
        counts: bool,
    ) -> Result<(), AllocError>
        requires normal { IsNormal row.lin }
        requires right { IsRightRow store.now.signature (terms_in store.now) row }
        requires fits { Fits store.now self.old }
        ensures added { OnOk result (IsAdded self.old row counts self.new) }
        ensures kept { OnErr result (self.new ≡ self.old) }
        ensures of_tags { (assumed : List Tagged) → AreOfTags assumed self.old → IsBlockOf assumed row.from.deriv.hyps row.from.tags → AreOfTags assumed self.new }
        ensures fits { Fits store.now self.new }
    {
        assume_row(
            alloc,
            store,
            &mut self.rows,
            &mut self.given,
            &mut self.tags,
            row,
            counts,
        )
    }

    /// What the rows come to, after each combination of two of them on the largest name of both that is no positive multiple of a row was noted. It can be called
    /// again after more rows were assumed.
    ///
    /// `Point` is a point at which each row that isn't 0 is positive. `Contradiction` has an allowed block that adds up rows and ends by the one that can't hold;
    /// its hypotheses and tags are those of the derivations of exactly the assumed rows that this one is made of. `Tight` comes where there is none, with
    /// rows, assumed or rounded, of which a positive sum is `0 >= 0`, each with lines that say it. `Steps` comes only where the journal is full, and `Number` only where a stated
    /// product or sum of a combination, or of the making of the point, leaves the limits: it is licensed then, where the rows agree with the journal and the row of
    /// each inequality literal that may stand was assumed, those alone counting that are rows of literals which surely stand. After a refusal the assumed rows are as before, and the noted lines stay.
    pub fn solve(
        &mut self,
        alloc: Global,
        store: &Store,
        journal: &mut Journal,
    ) -> Result<Ineq, Fail>
        requires fits { Fits store.now self.old }
        ensures point { (made : List PointAtValue) → result ≡ Ok (Point made) → ArePositiveAt (at_point made) self.new.rows }
        ensures stand { (made : List PointAtValue) → result ≡ Ok (Point made) → AllByRecursion IsPointNumber made }
        ensures contradictory { (e : ExplainedValue) → result ≡ Ok (Contradiction e) → IsContradictory store.now.signature e.block }
        ensures zero { (e : ExplainedValue) → result ≡ Ok (Contradiction e) → (line : ℕ) × (e.block.ending ≡ Zero line) }
        ensures built { (e : ExplainedValue) → result ≡ Ok (Contradiction e) → AreBuilt store.now.signature (terms_in store.now) e.block.deriv.lines }
        ensures made_of { (e : ExplainedValue) → result ≡ Ok (Contradiction e) → IsMadeOfRows self.new e }
        ensures literals { (e : ExplainedValue) (assumed : List Tagged) → result ≡ Ok (Contradiction e) → AreOfTags assumed self.old → IsBlockOf assumed e.block.deriv.hyps e.tags }
        ensures tight { (tight : List RowValue) → result ≡ Ok (Tight tight) → AreTightRows store.now self.new tight }
        ensures tight_literals { (tight : List RowValue) (assumed : List Tagged) → result ≡ Ok (Tight tight) → AreOfTags assumed self.old → AllByRecursion (λ row. IsBlockOf assumed row.from.deriv.hyps row.from.tags) tight }
        ensures tight_last { (tight : List RowValue) → result ≡ Ok (Tight tight) → NoneIsRefuted self.new.rows }
        ensures given { self.new.given ≡ self.old.given }
        ensures tags { self.new.tags ≡ self.old.tags }
        ensures extended { (js : List Line) × IsExtended self.old.rows journal.old.lines self.new.rows js × AreNotedOrNone self.new.rows js journal.new.lines }
        ensures agreed { OnOk result ((x : Setting) → AreAgreed x journal.old.lines self.old.rows → AreAgreed x journal.new.lines self.new.rows) }
        ensures legal { (x : Setting) (bound : ℕ) → AreAgreed x journal.old.lines self.old.rows → (added : List Line) × (journal.new.lines ≡ journal.old.lines ++ added) × AreLegal x bound journal.old.lines added }
        ensures limit { journal.new.limit ≡ journal.old.limit }
        ensures steps { result ≡ Err Steps → counted_in journal.new.lines ≡ journal.new.limit }
        ensures licensed { (wide : WideAt) (x : Setting) → result ≡ Err (Number wide) → AreAgreed x journal.old.lines self.old.rows → AreThoseAssumed x journal.new.lines self.new.rows → IsLicensed x journal.new.lines wide }
        ensures fits { Fits store.now self.new }
    {
        solve_rows(
            alloc,
            store,
            &mut self.rows,
            &self.given,
            &self.tags,
            journal,
        )
    }
}
