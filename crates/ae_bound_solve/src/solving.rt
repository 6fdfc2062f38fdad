//! What kept rows come to, in one call.
ghost use Rattle.std.specs.Prelude.{◌≡◌, ◌⊎◌, ℕ, List, Ok, Err};
ghost use Rattle.std.specs.List.{AllByRecursion, flat_map};
ghost use Rattle.ae_num.specs.Forms.{IsNormal};
ghost use Rattle.ae_core.specs.declared.proofs.Ending.TheVariants.{Zero};
ghost use Rattle.ae_journal.specs.Journals.{counted_in};
ghost use Rattle.ae_journal.specs.declared.answers.WideAt.{WideAt};
ghost use Rattle.ae_rules.specs.Derivations.{IsContradictory};
ghost use Rattle.ae_store.specs.Shapes.{shapes};
ghost use Rattle.ae_store.specs.Terms.{terms};
ghost use Rattle.ae_ineq.specs.Inner.Points.{IsNumber, value_in};
ghost use Rattle.ae_ineq.specs.Widths.{IsPointWide};
ghost use Rattle.ae_journal.specs.Standing.{Setting};
ghost use Rattle.ae_journal.specs.Licences.{IsLicensed};
ghost use Rattle.ae_theory.specs.declared.theory.Fail.TheVariants.{Steps, Number};
ghost use Rattle.ae_bounds.specs.Rounding.{AreRounded};
ghost use Rattle.ae_bounds.specs.Combinations.{IsExtended, IsWideIn, AreClosed, HasZero};
ghost use Rattle.ae_bounds.specs.Findings.{AreFounded, IsRefutedAt, NoneIsRefuted, HasRefuted};
ghost use Rattle.ae_bound_points.specs.Points.{IsNonzeroRow, ArePositiveAt};
ghost use Rattle.ae_bound_blocks.specs.Ancestors.{AreTagsOf, hyps_of};
ghost use Rattle.ae_bound_blocks.specs.Said.{AreBuilt};
ghost use Rattle.ae_bound_blocks.specs.Tight.{AreTight};
ghost use Rattle.ae_bound_widths.specs.Fractions.{AreInStep, AreOverFractions, AreAssumed, AreFinished};
ghost use Rattle.ae_bound_solve.specs.Given.{AreAllGiven, AreOpaqueNames};
ghost use Rattle.ae_bound_solve.specs.declared.answer.Answer.TheVariants.{Point, Contradiction, Tight};

use crate::answer::Answer;
use crate::refuted::refuted;
use ae_bound_blocks::given::Given;
use ae_bound_blocks::tight::tight;
use ae_bound_points::point::point;
use ae_bounds::bounds::Bounds;
use ae_bounds::finding::{Found, found_in};
use ae_bounds::rows::Row;
use ae_ineq::steps::PointFail;
use ae_journal::journal::Journal;
use ae_store::store::Store;
use ae_theory::theory::Fail;
use std::alloc::Global;

/// The point of rows that have all their combinations, of which none can't be and no combination is 0.
fn point_answer(alloc: Global, rows: &[Row]) -> Result<Answer, Fail>
    requires normal { AllByRecursion (λ row. IsNormal row.lin) rows.now }
    requires closed { AreClosed rows.now }
    requires were_rounded { AreRounded rows.now }
    requires possible { NoneIsRefuted rows.now }
    requires loose { HasZero rows.now → ⊥ }
    ensures point { (made : _) → result ≡ Ok (Point made) → ArePositiveAt (value_in made) rows.now }
    ensures numbers { (made : _) → result ≡ Ok (Point made) → AllByRecursion (λ at. IsNumber at.value) made }
    ensures contradiction { (e : _) → result ≡ Ok (Contradiction e) → ⊥ }
    ensures tight { (numbers : List ℕ) → result ≡ Ok (Tight numbers) → ⊥ }
    ensures steps { result ≡ Err Steps → ⊥ }
    ensures number { (wide : WideAt) → result ≡ Err (Number wide) → IsPointWide (IsNonzeroRow rows.now) wide × AreFinished rows.now }
{
    match point(alloc, rows) {
        Ok(made) => Ok(Answer::Point(made)),
        Err(PointFail::Wide(wide)) => Err(Fail::Number(wide)),
        Err(PointFail::Memory(refused)) => Err(Fail::Memory(refused)),
    }
}

/// What rows come to of which one can't hold, or that have all their combinations.
fn answer_of(alloc: Global, store: &Store, rows: &[Row], given: &[Given]) -> Result<Answer, Fail>
    requires normal { AllByRecursion (λ row. IsNormal row.lin) rows.now }
    requires founded { AreFounded rows.now }
    requires were_rounded { AreRounded rows.now }
    requires closed { AreClosed rows.now ⊎ HasRefuted rows.now }
    requires given { AreAllGiven store.now.signature (terms (shapes store.now.nodes)) rows.now given.now }
    requires opaque { AreOpaqueNames (terms (shapes store.now.nodes)) rows.now }
    ensures point { (made : _) → result ≡ Ok (Point made) → ArePositiveAt (value_in made) rows.now }
    ensures numbers { (made : _) → result ≡ Ok (Point made) → AllByRecursion (λ at. IsNumber at.value) made }
    ensures contradictory { (e : _) → result ≡ Ok (Contradiction e) → IsContradictory store.now.signature e.block }
    ensures zero { (e : _) → result ≡ Ok (Contradiction e) → (line : ℕ) × (e.block.ending ≡ Zero line) }
    ensures tags { (e : _) → result ≡ Ok (Contradiction e) → (place : ℕ) × IsRefutedAt rows.now place × AreTagsOf rows.now place e.tags }
    ensures hyps { (e : _) → result ≡ Ok (Contradiction e) → e.block.deriv.hyps ≡ flat_map (hyps_of given.now) e.tags }
    ensures built { (e : _) → result ≡ Ok (Contradiction e) → AreBuilt store.now.signature (terms (shapes store.now.nodes)) e.block.deriv.lines }
    ensures tight { (numbers : List ℕ) → result ≡ Ok (Tight numbers) → AreTight rows.now numbers }
    ensures tight_last { (numbers : List ℕ) → result ≡ Ok (Tight numbers) → NoneIsRefuted rows.now }
    ensures steps { result ≡ Err Steps → ⊥ }
    ensures number { (wide : WideAt) → result ≡ Err (Number wide) → IsPointWide (IsNonzeroRow rows.now) wide × AreFinished rows.now }
{
    match found_in(rows) {
        Found::Contradiction(place) => {
            let explained = refuted(alloc, store, rows, place, given)?;
            Ok(Answer::Contradiction(explained))
        }
        Found::Tight(place) => {
            let numbers = tight(alloc, rows, place)?;
            Ok(Answer::Tight(numbers))
        }
        Found::Open => point_answer(alloc, rows),
    }
}

/// What rows come to, after each combination of two of them on the largest name of both that is no positive multiple of a row was noted and added, or only those
/// up to the first row that can't hold. It can be called again after more rows were assumed.
///
/// `given` has by its number what gives the row of each tag. `Steps` comes only where the journal is full, and `Number` only where a stated product or sum of
/// the combination of two rows, or of the making of the point, leaves the limits; of rows over fractions that agree with the journal it is licensed then, where
/// the row of each inequality literal that may stand was assumed, and no other. After a refusal the rows that were there still are, and the combinations that
/// were noted till then.
pub fn solve(
    alloc: Global,
    store: &Store,
    bounds: &mut Bounds,
    journal: &mut Journal,
    given: &[Given],
) -> Result<Answer, Fail>
    requires given { AreAllGiven store.now.signature (terms (shapes store.now.nodes)) bounds.old given.now }
    requires opaque { AreOpaqueNames (terms (shapes store.now.nodes)) bounds.old }
    ensures point { (made : _) → result ≡ Ok (Point made) → ArePositiveAt (value_in made) bounds.new }
    ensures numbers { (made : _) → result ≡ Ok (Point made) → AllByRecursion (λ at. IsNumber at.value) made }
    ensures contradictory { (e : _) → result ≡ Ok (Contradiction e) → IsContradictory store.now.signature e.block }
    ensures zero { (e : _) → result ≡ Ok (Contradiction e) → (line : ℕ) × (e.block.ending ≡ Zero line) }
    ensures tags { (e : _) → result ≡ Ok (Contradiction e) → (place : ℕ) × IsRefutedAt bounds.new place × AreTagsOf bounds.new place e.tags }
    ensures hyps { (e : _) → result ≡ Ok (Contradiction e) → e.block.deriv.hyps ≡ flat_map (hyps_of given.now) e.tags }
    ensures built { (e : _) → result ≡ Ok (Contradiction e) → AreBuilt store.now.signature (terms (shapes store.now.nodes)) e.block.deriv.lines }
    ensures tight { (numbers : List ℕ) → result ≡ Ok (Tight numbers) → AreTight bounds.new numbers }
    ensures tight_last { (numbers : List ℕ) → result ≡ Ok (Tight numbers) → NoneIsRefuted bounds.new }
    ensures extended { IsExtended bounds.old journal.old.lines bounds.new journal.new.lines }
    ensures limit { journal.new.limit ≡ journal.old.limit }
    ensures steps { result ≡ Err Steps → counted_in journal.new.lines ≡ journal.new.limit }
    ensures number { (wide : WideAt) → result ≡ Err (Number wide) → IsWideIn bounds.new wide ⊎ (IsPointWide (IsNonzeroRow bounds.new) wide × AreFinished bounds.new) }
    ensures licensed { (wide : WideAt) (x : Setting) → result ≡ Err (Number wide) → AreInStep x journal.old.lines bounds.old → AreOverFractions x bounds.old → AreAssumed x journal.new.lines bounds.new → IsLicensed x journal.new.lines wide }
{
    bounds.close(alloc, journal)?;
    answer_of(alloc, store, bounds.rows(), given)
}
