//! Rows with their derivations, by their parts.
ghost use Rattle.std.specs.Prelude.{◌≡◌, ◌++◌, ◌∷◌, ◌⊎◌, [], ℕ, List, Ok, Err, OnOk, OnErr, length};
ghost use Rattle.std.specs.List.{AllByRecursion};
ghost use Rattle.ae_num.specs.Forms.{IsNormal};
ghost use Rattle.ae_core.specs.declared.proofs.Ending.TheVariants.{Zero};
ghost use Rattle.ae_journal.specs.Journals.{counted_in};
ghost use Rattle.ae_journal.specs.Legal.{AreLegal};
ghost use Rattle.ae_journal.specs.Licences.{IsLicensed};
ghost use Rattle.ae_journal.specs.Standing.{Setting};
ghost use Rattle.ae_journal.specs.States.{at_point};
ghost use Rattle.ae_journal.specs.declared.answers.WideAt.{WideAt};
ghost use Rattle.ae_journal.specs.declared.lines.Line.{Line};
ghost use Rattle.ae_journal.specs.declared.systems.PointAt.{PointAt as PointAtValue};
ghost use Rattle.ae_rules.specs.Derivations.{IsContradictory};
ghost use Rattle.ae_theory.specs.Names.{terms_in};
ghost use Rattle.ae_theory.specs.Noting.{IsBlockOf};
ghost use Rattle.ae_theory.specs.Tagged.{Tagged};
ghost use Rattle.ae_theory.specs.declared.theory.Explained.{Explained as ExplainedValue};
ghost use Rattle.ae_theory.specs.declared.theory.Fail.TheVariants.{Steps, Number};
ghost use Rattle.ae_bounds.specs.Combinations.{IsExtended};
ghost use Rattle.ae_bounds.specs.Findings.{NoneIsRefuted};
ghost use Rattle.ae_bound_blocks.specs.Said.{AreBuilt};
ghost use Rattle.ae_bound_points.specs.Points.{ArePositiveAt};
ghost use Rattle.ae_bound_rest.specs.Laws.{AreAgreed, AreThoseAssumed};
ghost use Rattle.ae_bound_solve.specs.Widths.{AreNotedOrNone};
ghost use Rattle.ae_inequalities.specs.declared.answer.Ineq.TheVariants.{Point, Contradiction, Tight};
ghost use Rattle.ae_inequalities.specs.declared.rows.Row.{Row as RowValue};
ghost use Rattle.ae_inequalities.specs.Points.{IsPointNumber};
ghost use Rattle.ae_inequalities.specs.Rows.{IsRightRow};
ghost use Rattle.ae_inequalities.specs.Held.{Fits, IsAdded, AreOfTags, IsMadeOfRows};
ghost use Rattle.ae_inequalities.specs.Tight.{AreTightRows};

use crate::answer::Ineq;
use crate::answering::answered;
use crate::rows::Row;
use ae_bound_blocks::given::Given;
use ae_bound_solve::licensed::solve_licensed;
use ae_bounds::bounds::Bounds as Kept;
use ae_core::lists::List;
use ae_journal::journal::Journal;
use ae_store::store::Store;
use ae_theory::theory::{Derived, Fail};
use std::alloc::{AllocError, Global};

/// Takes off what gives the last row.
fn take_given(given: &mut List<Given>)
    ensures { (front : _) (last : _) → given.old ≡ front ++ last ∷ [] → given.new ≡ front }
{
    given.pop();
}

/// Takes off the tags of the last row.
fn take_tags(tags: &mut List<List<usize>>)
    ensures { (front : _) (last : _) → tags.old ≡ front ++ last ∷ [] → tags.new ≡ front }
{
    tags.pop();
}

/// Adds what gives a row, and its tags. Refused memory leaves both as they were.
fn push_source(
    given: &mut List<Given>,
    tags: &mut List<List<usize>>,
    lines: Given,
    own: List<usize>,
) -> Result<(), AllocError>
    ensures given { OnOk result (given.new ≡ given.old ++ lines ∷ []) }
    ensures tags { OnOk result (tags.new ≡ tags.old ++ own ∷ []) }
    ensures kept { OnErr result ((given.new ≡ given.old) × (tags.new ≡ tags.old)) }
{
    given.push(lines)?;
    match tags.push(own) {
        Ok(()) => Ok(()),
        Err(refused) => {
            take_given(given);
            Err(refused)
        }
    }
}

/// Adds a row, as one that counts or not.
pub fn assume_row(
    alloc: Global,
    store: &Store,
    rows: &mut Kept,
    given: &mut List<Given>,
    tags: &mut List<List<usize>>,
    row: Row,
    counts: bool,
) -> Result<(), AllocError>
    requires normal { IsNormal row.lin }
    requires right { IsRightRow store.now.signature (terms_in store.now) row }
    requires fits { Fits store.now (record { rows = rows.old; given = given.old; tags = tags.old }) }
    requires same { length tags.old ≡ length given.old }
    ensures added { OnOk result (IsAdded (record { rows = rows.old; given = given.old; tags = tags.old }) row counts (record { rows = rows.new; given = given.new; tags = tags.new })) }
    ensures kept { OnErr result ((rows.new ≡ rows.old) × (given.new ≡ given.old) × (tags.new ≡ tags.old)) }
    ensures of_tags { (assumed : List Tagged) → AreOfTags assumed (record { rows = rows.old; given = given.old; tags = tags.old }) → IsBlockOf assumed row.from.deriv.hyps row.from.tags →
        AreOfTags assumed (record { rows = rows.new; given = given.new; tags = tags.new }) }
    ensures fits { Fits store.now (record { rows = rows.new; given = given.new; tags = tags.new }) }
    ensures same { length tags.new ≡ length given.new }
{
    let _names = store.len();
    let Row {
        lin,
        strict,
        integral,
        multiple,
        real,
        from,
    } = row;
    let Derived { deriv, tags: own } = from;
    let number = given.len();
    let lines = Given {
        deriv,
        multiple,
        real,
    };
    push_source(given, tags, lines, own)?;
    match rows.assume(alloc, lin, strict, integral, counts, number) {
        Ok(()) => Ok(()),
        Err(refused) => {
            take_given(given);
            take_tags(tags);
            Err(refused)
        }
    }
}

/// What the rows come to.
pub fn solve_rows(
    alloc: Global,
    store: &Store,
    rows: &mut Kept,
    given: &List<Given>,
    tags: &List<List<usize>>,
    journal: &mut Journal,
) -> Result<Ineq, Fail>
    requires fits { Fits store.now (record { rows = rows.old; given = given.now; tags = tags.now }) }
    ensures point { (made : List PointAtValue) → result ≡ Ok (Point made) → ArePositiveAt (at_point made) rows.new }
    ensures stand { (made : List PointAtValue) → result ≡ Ok (Point made) → AllByRecursion IsPointNumber made }
    ensures contradictory { (e : ExplainedValue) → result ≡ Ok (Contradiction e) → IsContradictory store.now.signature e.block }
    ensures zero { (e : ExplainedValue) → result ≡ Ok (Contradiction e) → (line : ℕ) × (e.block.ending ≡ Zero line) }
    ensures built { (e : ExplainedValue) → result ≡ Ok (Contradiction e) → AreBuilt store.now.signature (terms_in store.now) e.block.deriv.lines }
    ensures made_of { (e : ExplainedValue) → result ≡ Ok (Contradiction e) → IsMadeOfRows (record { rows = rows.new; given = given.now; tags = tags.now }) e }
    ensures literals { (e : ExplainedValue) (assumed : List Tagged) → result ≡ Ok (Contradiction e) → AreOfTags assumed (record { rows = rows.old; given = given.now; tags = tags.now }) → IsBlockOf assumed e.block.deriv.hyps e.tags }
    ensures tight { (tight : List RowValue) → result ≡ Ok (Tight tight) → AreTightRows store.now (record { rows = rows.new; given = given.now; tags = tags.now }) tight }
    ensures tight_last { (tight : List RowValue) → result ≡ Ok (Tight tight) → NoneIsRefuted rows.new }
    ensures extended { (js : List Line) × IsExtended rows.old journal.old.lines rows.new js × AreNotedOrNone rows.new js journal.new.lines }
    ensures agreed { OnOk result ((x : Setting) → AreAgreed x journal.old.lines rows.old → AreAgreed x journal.new.lines rows.new) }
    ensures legal { (x : Setting) (bound : ℕ) → AreAgreed x journal.old.lines rows.old → (added : List Line) × (journal.new.lines ≡ journal.old.lines ++ added) × AreLegal x bound journal.old.lines added }
    ensures limit { journal.new.limit ≡ journal.old.limit }
    ensures steps { result ≡ Err Steps → counted_in journal.new.lines ≡ journal.new.limit }
    ensures licensed { (wide : WideAt) (x : Setting) → result ≡ Err (Number wide) → AreAgreed x journal.old.lines rows.old → AreThoseAssumed x journal.new.lines rows.new → IsLicensed x journal.new.lines wide }
    ensures fits { Fits store.now (record { rows = rows.new; given = given.now; tags = tags.now }) }
{
    let _names = store.len();
    let answer = solve_licensed(alloc, store, rows, journal, given.as_slice())?;
    answered(
        alloc,
        store,
        rows.rows(),
        given.as_slice(),
        tags.as_slice(),
        answer,
    )
}
