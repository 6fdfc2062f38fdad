//! Answers with fractions, and with derivations and their tags.
ghost use Rattle.std.specs.Prelude.{◌≡◌, ℕ, List, Ok, Err, IfOk};
ghost use Rattle.std.specs.List.{AllByRecursion, flat_map};
ghost use Rattle.ae_num.specs.Forms.{IsNormal};
ghost use Rattle.ae_journal.specs.States.{at_point};
ghost use Rattle.ae_journal.specs.declared.answers.WideAt.{WideAt};
ghost use Rattle.ae_journal.specs.declared.systems.PointAt.{PointAt as PointAtValue};
ghost use Rattle.ae_ineq.specs.Inner.Points.{IsNumber, value_in};
ghost use Rattle.ae_inequalities.specs.Points.{IsPointNumber};
ghost use Rattle.ae_ineq.specs.declared.point.Valuation.{Valuation as ValuationValue};
ghost use Rattle.ae_theory.specs.Names.{terms_in};
ghost use Rattle.ae_theory.specs.declared.theory.Explained.{Explained as ExplainedValue};
ghost use Rattle.ae_theory.specs.declared.theory.Fail.TheVariants.{Steps, Number};
ghost use Rattle.ae_bounds.specs.Rounding.{AreRounded};
ghost use Rattle.ae_bounds.specs.Findings.{AreFounded};
ghost use Rattle.ae_bound_blocks.specs.Tight.{AreTight};
ghost use Rattle.ae_bound_solve.specs.Given.{AreAllGiven, AreOpaqueNames};
ghost use Rattle.ae_bound_solve.specs.declared.answer.Answer.TheVariants.{Point as PointAnswer, Contradiction as ContradictionAnswer, Tight as TightAnswer};
ghost use Rattle.ae_inequalities.specs.declared.answer.Ineq.TheVariants.{Point, Contradiction, Tight};
ghost use Rattle.ae_inequalities.specs.declared.rows.Row.{Row as RowValue};
ghost use Rattle.ae_inequalities.specs.Held.{tags_at};
ghost use Rattle.ae_inequalities.specs.Tight.{AreTightRows};

use crate::answer::Ineq;
use crate::tagging::joined;
use crate::tight::rows_at;
use ae_bound_blocks::given::Given;
use ae_bound_solve::answer::Answer;
use ae_bounds::rows::Row as Kept;
use ae_core::lists::List;
use ae_ineq::point::Valuation;
use ae_journal::systems::PointAt;
use ae_store::store::Store;
use ae_theory::theory::{Explained, Fail};
use std::alloc::{AllocError, Global};

/// A name with its value as a fraction.
fn fraction_at(at: &Valuation) -> PointAt
    ensures { result ≡ record { name = at.now.name; top = at.now.value.constant; bottom = at.now.value.den } }
{
    PointAt {
        name: at.name,
        top: at.value.constant,
        bottom: at.value.den,
    }
}

/// The point with its values as fractions.
fn fractions(alloc: Global, made: &[Valuation]) -> Result<List<PointAt>, AllocError>
    ensures at { IfOk result (λ point. at_point point ≡ value_in made.now) }
    ensures each { AllByRecursion (λ at. IsNumber at.value) made.now → IfOk result (AllByRecursion IsPointNumber) }
{
    let mut point = List::new(alloc);
    for at in made {
        point.push(fraction_at(at))?;
    }
    Ok(point)
}

/// A block with other tags.
fn with_tags(explained: Explained, tags: List<usize>) -> Explained
    ensures block { result.block ≡ explained.block }
    ensures tags { result.tags ≡ tags }
{
    Explained {
        block: explained.block,
        tags,
    }
}

/// A block with the tags of the derivations that it is made of.
fn explained_by(
    alloc: Global,
    explained: Explained,
    tags: &[List<usize>],
) -> Result<Explained, AllocError>
    ensures block { IfOk result (λ e. e.block ≡ explained.block) }
    ensures tags { IfOk result (λ e. e.tags ≡ flat_map (tags_at tags.now) explained.tags) }
{
    let all = joined(alloc, tags, explained.tags.as_slice())?;
    Ok(with_tags(explained, all))
}

/// The answer with its values as fractions, with the tags of the derivations, and with lines that say the rows of a tight sum.
pub fn answered(
    alloc: Global,
    store: &Store,
    rows: &[Kept],
    given: &[Given],
    tags: &[List<usize>],
    answer: Answer,
) -> Result<Ineq, Fail>
    requires normal { AllByRecursion (λ row. IsNormal row.lin) rows.now }
    requires founded { AreFounded rows.now }
    requires were_rounded { AreRounded rows.now }
    requires given { AreAllGiven store.now.signature (terms_in store.now) rows.now given.now }
    requires opaque { AreOpaqueNames (terms_in store.now) rows.now }
    requires tight { (numbers : List ℕ) → answer ≡ TightAnswer numbers → AreTight rows.now numbers }
    ensures point { (made : List PointAtValue) → result ≡ Ok (Point made) → (values : List ValuationValue) × (answer ≡ PointAnswer values) × (at_point made ≡ value_in values) }
    ensures stand { (made : List PointAtValue) → result ≡ Ok (Point made) → (values : List ValuationValue) × (answer ≡ PointAnswer values) × (AllByRecursion (λ at. IsNumber at.value) values → AllByRecursion IsPointNumber made) }
    ensures contradiction { (e : ExplainedValue) → result ≡ Ok (Contradiction e) → (f : ExplainedValue) × (answer ≡ ContradictionAnswer f) × (e.block ≡ f.block) × (e.tags ≡ flat_map (tags_at tags.now) f.tags) }
    ensures tight { (found : List RowValue) → result ≡ Ok (Tight found) → AreTightRows store.now (record { rows = rows.now; given = given.now; tags = tags.now }) found }
    ensures numbers { (found : List RowValue) → result ≡ Ok (Tight found) → (numbers : List ℕ) × (answer ≡ TightAnswer numbers) }
    ensures steps { result ≡ Err Steps → ⊥ }
    ensures number { (wide : WideAt) → result ≡ Err (Number wide) → ⊥ }
{
    match answer {
        Answer::Point(made) => {
            let point = fractions(alloc, made.as_slice())?;
            Ok(Ineq::Point(point))
        }
        Answer::Contradiction(explained) => {
            let explained = explained_by(alloc, explained, tags)?;
            Ok(Ineq::Contradiction(explained))
        }
        Answer::Tight(numbers) => {
            let found = rows_at(alloc, store, rows, given, tags, numbers.as_slice())?;
            Ok(Ineq::Tight(found))
        }
    }
}
