//! What kept rows come to, where a width is to be licensed.
ghost use Rattle.std.specs.Prelude.{◌≡◌, ◌⊎◌, ◌≢◌, ℕ, List, Ok, Err, OnOk, true, false};
ghost use Rattle.std.specs.List.{AllByRecursion, flat_map};
ghost use Rattle.ae_core.specs.declared.proofs.Ending.TheVariants.{Zero};
ghost use Rattle.ae_journal.specs.Journals.{counted_in};
ghost use Rattle.ae_journal.specs.Standing.{Setting};
ghost use Rattle.ae_journal.specs.Licences.{IsLicensed};
ghost use Rattle.ae_journal.specs.declared.answers.NumStep.TheVariants.{Combine};
ghost use Rattle.ae_journal.specs.declared.answers.WideAt.{WideAt};
ghost use Rattle.ae_journal.specs.declared.lines.Line.{Line};
ghost use Rattle.ae_rules.specs.Derivations.{IsContradictory};
ghost use Rattle.ae_store.specs.Shapes.{shapes};
ghost use Rattle.ae_store.specs.Terms.{terms};
ghost use Rattle.ae_ineq.specs.Inner.Points.{IsNumber, value_in};
ghost use Rattle.ae_theory.specs.declared.theory.Fail.TheVariants.{Steps, Number};
ghost use Rattle.ae_bounds.specs.Combinations.{IsExtended};
ghost use Rattle.ae_bounds.specs.Findings.{IsRefutedAt, NoneIsRefuted};
ghost use Rattle.ae_bound_points.specs.Points.{ArePositiveAt};
ghost use Rattle.ae_bound_blocks.specs.Ancestors.{AreTagsOf, hyps_of};
ghost use Rattle.ae_bound_blocks.specs.Said.{AreBuilt};
ghost use Rattle.ae_bound_blocks.specs.Tight.{AreTight};
ghost use Rattle.ae_bound_rest.specs.Laws.{AreAgreed, AreThoseAssumed};
ghost use Rattle.ae_bound_solve.specs.Given.{AreAllGiven, AreOpaqueNames};
ghost use Rattle.ae_bound_solve.specs.Widths.{IsWidth, AreNotedOrNone};
ghost use Rattle.ae_bound_solve.specs.declared.answer.Answer.TheVariants.{Point, Contradiction, Tight};

use crate::answer::Answer;
use crate::solving::solve;
use ae_bound_blocks::given::Given;
use ae_bound_rest::rest::note_rest;
use ae_bounds::bounds::Bounds;
use ae_journal::answers::{NumStep, WideAt};
use ae_journal::journal::Journal;
use ae_store::store::Store;
use ae_theory::theory::Fail;
use std::alloc::Global;

/// Whether a width is one of a combination.
fn is_of_combination(wide: &WideAt) -> bool
    ensures yes { result ≡ true → wide.now.step ≡ Combine }
    ensures no { result ≡ false → wide.now.step ≢ Combine }
{
    match wide.step {
        NumStep::Combine => true,
        NumStep::Plus => false,
        NumStep::Scale => false,
        NumStep::Subst => false,
    }
}

/// The answer for a width: where it is one of the making of a point, the combinations that are left are noted first.
fn with_rest(alloc: Global, bounds: &Bounds, journal: &mut Journal, wide: WideAt) -> Fail
    requires { IsWidth bounds.now wide }
    ensures noted { AreNotedOrNone bounds.now journal.old.lines journal.new.lines }
    ensures limit { journal.new.limit ≡ journal.old.limit }
    ensures steps { result ≡ Steps → counted_in journal.new.lines ≡ journal.new.limit }
    ensures licensed { (at : WideAt) (x : Setting) → result ≡ Number at → AreAgreed x journal.old.lines bounds.now → AreThoseAssumed x journal.new.lines bounds.now → IsLicensed x journal.new.lines at }
{
    if is_of_combination(&wide) {
        return Fail::Number(wide);
    }
    match note_rest(alloc, bounds.rows(), journal) {
        Ok(()) => Fail::Number(wide),
        Err(fail) => fail,
    }
}

/// What rows come to, as `solve` says it, with a width that is licensed: where the making of the point leaves the limits, the combinations that are left, of rows
/// over integers as they were before they were rounded, are noted before `Number` is answered. After `Number` the journal may hold lines of combinations that the rows don't have.
pub fn solve_licensed(
    alloc: Global,
    store: &Store,
    bounds: &mut Bounds,
    journal: &mut Journal,
    given: &[Given],
) -> Result<Answer, Fail>
    requires given { AreAllGiven store.now.signature (terms (shapes store.now.nodes)) bounds.old given.now }
    requires opaque { AreOpaqueNames (terms (shapes store.now.nodes)) bounds.old }
    ensures point { (made : _) → result ≡ Ok (Point made) → ArePositiveAt (value_in made) bounds.new }
    ensures numbers { (made : _) → result ≡ Ok (Point made) → AllByRecursion (λ at. IsNumber at.value) made }
    ensures contradictory { (e : _) → result ≡ Ok (Contradiction e) → IsContradictory store.now.signature e.block }
    ensures zero { (e : _) → result ≡ Ok (Contradiction e) → (line : ℕ) × (e.block.ending ≡ Zero line) }
    ensures tags { (e : _) → result ≡ Ok (Contradiction e) → (place : ℕ) × IsRefutedAt bounds.new place × AreTagsOf bounds.new place e.tags }
    ensures hyps { (e : _) → result ≡ Ok (Contradiction e) → e.block.deriv.hyps ≡ flat_map (hyps_of given.now) e.tags }
    ensures built { (e : _) → result ≡ Ok (Contradiction e) → AreBuilt store.now.signature (terms (shapes store.now.nodes)) e.block.deriv.lines }
    ensures tight { (numbers : List ℕ) → result ≡ Ok (Tight numbers) → AreTight bounds.new numbers }
    ensures tight_last { (numbers : List ℕ) → result ≡ Ok (Tight numbers) → NoneIsRefuted bounds.new }
    ensures kept { OnOk result (IsExtended bounds.old journal.old.lines bounds.new journal.new.lines) }
    ensures extended { (js : List Line) × IsExtended bounds.old journal.old.lines bounds.new js × AreNotedOrNone bounds.new js journal.new.lines }
    ensures limit { journal.new.limit ≡ journal.old.limit }
    ensures steps { result ≡ Err Steps → counted_in journal.new.lines ≡ journal.new.limit }
    ensures licensed { (wide : WideAt) (x : Setting) → result ≡ Err (Number wide) → AreAgreed x journal.old.lines bounds.old → AreThoseAssumed x journal.new.lines bounds.new → IsLicensed x journal.new.lines wide }
{
    match solve(alloc, store, bounds, journal, given) {
        Ok(answer) => Ok(answer),
        Err(Fail::Number(wide)) => Err(with_rest(alloc, bounds, journal, wide)),
        Err(Fail::Steps) => Err(Fail::Steps),
        Err(Fail::Memory(refused)) => Err(Fail::Memory(refused)),
    }
}
