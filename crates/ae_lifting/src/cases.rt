//! `if`s between terms, taken out of the atoms in which they stand.

ghost use Rattle.std.specs.Prelude.{◌≡◌, ◌++◌, ◌∷◌, [], IfOk};
ghost use Rattle.ae_core.specs.declared.terms.Term.{Apply};
ghost use Rattle.ae_elab.specs.Elaboration as rule;
ghost use Rattle.ae_elab.specs.Elaboration.{◌|>◌, leaf, branch, formula_of};
ghost use Rattle.ae_lifting.specs.declared.cases.Atom.TheVariants as said;
ghost use Rattle.ae_lifting.specs.Lifting.{cases_of, said_of, changed_in};
ghost use Rattle.ae_lifting.specs.Inner.Answered.{AreOk, IsChoice, IsEitherWay, IsRelation};

use ae_core::copies::{copy_formula, copy_sorts, copy_terms};
use ae_core::formulas::Formula;
use ae_core::lists::{Boxed, List};
use ae_core::terms::{Head, Sort, Term};
use ae_elab::nodes::Relation;
use ae_elaboration::elaboration::{distinct, either_way, holds, record_of, related, true_term};
use std::alloc::{AllocError, Global};

/// Terms that hang on conditions: what is left of them where their `if`s are taken out.
#[derive(Drop)]
pub enum Cases {
    /// No `if` stands in these terms.
    Leaf(List<Term>),
    /// The cases where the condition holds, and those where it doesn't.
    Branch {
        condition: Formula,
        positive: Boxed<Cases>,
        negative: Boxed<Cases>,
    },
}

/// What an atom says of its terms.
#[derive(Drop)]
pub enum Atom {
    /// Of two terms.
    Relation(Relation),
    Predicate { symbol: usize, sorts: List<Sort> },
    Distinct,
    /// Of a term of sort `bool`, which stands for a formula.
    Holds,
}

// Both answers, or the first error.
fn both<A: Drop, B: Drop>(
    first: Result<A, AllocError>,
    second: Result<B, AllocError>,
) -> Result<(A, B), AllocError>
    ensures { IfOk result (λ values. AreOk first second values.0 values.1) }
{
    let first = first?;
    let second = second?;
    Ok((first, second))
}

/// `if` between terms: the cases of both, under the condition.
pub fn choice(
    alloc: Global,
    condition: Formula,
    positive: Cases,
    negative: Cases,
) -> Result<Cases, AllocError>
    ensures { IfOk result (λ cs. cases_of cs ≡ branch condition (cases_of positive) (cases_of negative)) }
{
    let kept = Boxed::new(alloc, condition);
    let left = Boxed::new(alloc, positive);
    let right = Boxed::new(alloc, negative);
    let parts = both(left, right);
    let (kept, (positive, negative)) = both(kept, parts)?;
    let condition = kept.into_inner();
    Ok(Cases::Branch {
        condition,
        positive,
        negative,
    })
}

// `choice` of what two calls answer.
fn choice_of(
    alloc: Global,
    condition: Formula,
    positive: Result<Cases, AllocError>,
    negative: Result<Cases, AllocError>,
) -> Result<Cases, AllocError>
    ensures { IfOk result (IsChoice condition positive negative) }
{
    let kept = Boxed::new(alloc, condition);
    let cases = both(positive, negative);
    let (kept, (left, right)) = both(kept, cases)?;
    let condition = kept.into_inner();
    let whole = choice(alloc, condition, left, right)?;
    Ok(whole)
}

// `choice` of what two calls answer, under an equal condition.
fn chosen(
    alloc: Global,
    condition: &Formula,
    positive: Result<Cases, AllocError>,
    negative: Result<Cases, AllocError>,
) -> Result<Cases, AllocError>
    ensures { IfOk result (IsChoice condition.now positive negative) }
{
    let copied = copy_formula(alloc, condition);
    let cases = both(positive, negative);
    let (copy, (left, right)) = both(copied, cases)?;
    let whole = choice(alloc, copy, left, right)?;
    Ok(whole)
}

// Terms without `if`, and behind them the cases of others.
fn led(alloc: Global, next: &Cases, terms: &[Term]) -> Result<Cases, AllocError>
    ensures { IfOk result (λ cs. cases_of cs ≡ (cases_of next.now |> λ us. leaf (terms.now ++ us))) }
{
    match next {
        Cases::Leaf(more) => {
            let all = joined(alloc, terms, more.as_slice())?;
            Ok(Cases::Leaf(all))
        }
        Cases::Branch {
            condition,
            positive,
            negative,
        } => {
            let left = positive.get();
            let right = negative.get();
            let yes = led(alloc, left, terms);
            let no = led(alloc, right, terms);
            chosen(alloc, condition, yes, no)
        }
    }
}

// Terms behind others.
fn joined(alloc: Global, first: &[Term], next: &[Term]) -> Result<List<Term>, AllocError>
    ensures { IfOk result (λ us. us ≡ first.now ++ next.now) }
{
    let mut all = copy_terms(alloc, first)?;
    let more = copy_terms(alloc, next)?;
    all.append(more)?;
    Ok(all)
}

/// Terms and others behind them: under each case of the first ones, those of the others.
pub fn followed(alloc: Global, first: Cases, next: &Cases) -> Result<Cases, AllocError>
    ensures { IfOk result (λ cs. cases_of cs ≡ (cases_of first |> λ us. cases_of next.now |> λ vs. leaf (us ++ vs))) }
{
    match first {
        Cases::Leaf(terms) => led(alloc, next, terms.as_slice()),
        Cases::Branch {
            condition,
            positive,
            negative,
        } => {
            let left = positive.into_inner();
            let right = negative.into_inner();
            let yes = followed(alloc, left, next);
            let no = followed(alloc, right, next);
            choice_of(alloc, condition, yes, no)
        }
    }
}

// The application of a head to terms in which no `if` stands.
fn application(
    alloc: Global,
    head: Head,
    sorts: &[Sort],
    args: List<Term>,
) -> Result<Cases, AllocError>
    ensures { IfOk result (λ cs. cases_of cs ≡ leaf (Apply head sorts.now args ∷ [])) }
{
    let sorts = copy_sorts(alloc, sorts)?;
    let mut all = List::new(alloc);
    all.push(Term::Apply { head, sorts, args })?;
    Ok(Cases::Leaf(all))
}

/// The application of a head to terms, in each case.
pub fn applied(alloc: Global, args: Cases, head: Head, sorts: &[Sort]) -> Result<Cases, AllocError>
    ensures { IfOk result (λ cs. cases_of cs ≡ (cases_of args |> λ us. leaf (Apply head sorts.now us ∷ []))) }
{
    match args {
        Cases::Leaf(us) => application(alloc, head, sorts, us),
        Cases::Branch {
            condition,
            positive,
            negative,
        } => {
            let left = positive.into_inner();
            let right = negative.into_inner();
            let yes = applied(alloc, left, head, sorts);
            let no = applied(alloc, right, head, sorts);
            choice_of(alloc, condition, yes, no)
        }
    }
}

// A record with some fields changed: the first of the terms is the record, and the others are the fields' values.
fn changed_in(
    alloc: Global,
    of: usize,
    sorts: &[Sort],
    count: usize,
    places: &[usize],
    terms: &[Term],
) -> Result<Term, AllocError>
    ensures { IfOk result (λ t. t ≡ changed_in of sorts.now count places.now terms.now) }
{
    match terms {
        [] => Ok(true_term(alloc)),
        [base, values @ ..] => {
            let sorts = copy_sorts(alloc, sorts)?;
            let record = record_of(alloc, of, sorts, count, base, places, values)?;
            Ok(record)
        }
    }
}

// The changed record of terms in which no `if` stands.
fn changed_leaf(
    alloc: Global,
    of: usize,
    sorts: &[Sort],
    count: usize,
    places: &[usize],
    terms: &[Term],
) -> Result<Cases, AllocError>
    ensures { IfOk result (λ cs. cases_of cs ≡ leaf (changed_in of sorts.now count places.now terms.now ∷ [])) }
{
    let record = changed_in(alloc, of, sorts, count, places, terms)?;
    let mut all = List::new(alloc);
    all.push(record)?;
    Ok(Cases::Leaf(all))
}

/// A record of a type with `count` fields, of which those at `places` are changed, in each case. The first of the terms is the
/// record, and the others are the values of the fields.
pub fn changed(
    alloc: Global,
    terms: Cases,
    of: usize,
    sorts: &[Sort],
    count: usize,
    places: &[usize],
) -> Result<Cases, AllocError>
    ensures { IfOk result (λ cs. cases_of cs ≡ (cases_of terms |> λ us. leaf (changed_in of sorts.now count places.now us ∷ []))) }
{
    match terms {
        Cases::Leaf(us) => changed_leaf(alloc, of, sorts, count, places, us.as_slice()),
        Cases::Branch {
            condition,
            positive,
            negative,
        } => {
            let left = positive.into_inner();
            let right = negative.into_inner();
            let yes = changed(alloc, left, of, sorts, count, places);
            let no = changed(alloc, right, of, sorts, count, places);
            choice_of(alloc, condition, yes, no)
        }
    }
}

// A relation of two terms.
fn relation_of_two(
    alloc: Global,
    relation: Relation,
    terms: List<Term>,
) -> Result<Formula, AllocError>
    ensures { IfOk result (λ f. f ≡ said_of (said.Relation relation) terms) }
{
    let mut rest = terms;
    match rest.pop() {
        None => Ok(Formula::True),
        Some(right) => match rest.pop() {
            None => Ok(Formula::True),
            Some(left) => {
                if !rest.is_empty() {
                    return Ok(Formula::True);
                }
                let formula = related(alloc, relation, left, right)?;
                Ok(formula)
            }
        },
    }
}

// A term that stands for a formula.
fn formula_of_one(alloc: Global, terms: List<Term>) -> Formula
    ensures { result ≡ said_of said.Holds terms }
{
    let mut rest = terms;
    match rest.pop() {
        None => Formula::True,
        Some(term) => {
            if rest.is_empty() {
                holds(alloc, term)
            } else {
                Formula::True
            }
        }
    }
}

// An atom of terms without `if`.
fn atom_of(alloc: Global, atom: &Atom, terms: List<Term>) -> Result<Formula, AllocError>
    ensures { IfOk result (λ f. f ≡ said_of atom.now terms) }
{
    match atom {
        Atom::Relation(relation) => {
            let formula = relation_of_two(alloc, *relation, terms)?;
            Ok(formula)
        }
        Atom::Predicate { symbol, sorts } => Ok(Formula::Pred {
            symbol: *symbol,
            sorts: copy_sorts(alloc, sorts.as_slice())?,
            args: terms,
        }),
        Atom::Distinct => {
            let different = distinct(alloc, terms.as_slice())?;
            Ok(different)
        }
        Atom::Holds => Ok(formula_of_one(alloc, terms)),
    }
}

// `either_way` of what two calls answer.
fn either_of(
    alloc: Global,
    condition: Formula,
    positive: Result<Formula, AllocError>,
    negative: Result<Formula, AllocError>,
) -> Result<Formula, AllocError>
    ensures { IfOk result (IsEitherWay condition positive negative) }
{
    let kept = Boxed::new(alloc, condition);
    let formulas = both(positive, negative);
    let (kept, (left, right)) = both(kept, formulas)?;
    let condition = kept.into_inner();
    let whole = either_way(alloc, condition, left, right)?;
    Ok(whole)
}

/// The formula of an atom from which the `if`s of its terms are taken out, the leftmost outermost one first.
pub fn lifted(alloc: Global, terms: Cases, atom: &Atom) -> Result<Formula, AllocError>
    ensures { IfOk result (λ f. f ≡ formula_of (cases_of terms |> λ us. leaf (said_of atom.now us))) }
{
    match terms {
        Cases::Leaf(us) => atom_of(alloc, atom, us),
        Cases::Branch {
            condition,
            positive,
            negative,
        } => {
            let left = positive.into_inner();
            let right = negative.into_inner();
            let yes = lifted(alloc, left, atom);
            let no = lifted(alloc, right, atom);
            either_of(alloc, condition, yes, no)
        }
    }
}

// The formula of a relation of the terms that a call answers, from which the `if`s of the terms are taken out.
fn relation_lifted(
    alloc: Global,
    relation: Relation,
    terms: Result<Cases, AllocError>,
) -> Result<Formula, AllocError>
    ensures { IfOk result (IsRelation terms relation) }
{
    match terms {
        Ok(cases) => {
            let atom = Atom::Relation(relation);
            lifted(alloc, cases, &atom)
        }
        Err(error) => Err(error),
    }
}

/// A relation between two terms of which each may hang on conditions: the `if`s of the left one are taken out before those of
/// the right one.
pub fn compared(
    alloc: Global,
    relation: Relation,
    left: Cases,
    right: Cases,
) -> Result<Formula, AllocError>
    ensures { IfOk result (λ f. f ≡ formula_of (cases_of left |> λ us. cases_of right |> λ vs. leaf (said_of (said.Relation relation) (us ++ vs)))) }
{
    let terms = followed(alloc, left, &right);
    relation_lifted(alloc, relation, terms)
}
