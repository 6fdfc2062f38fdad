//! The rules of elaboration on terms and formulas, one function for each: what of a typed text has no form of its own is
//! written with what has one.

ghost use Rattle.std.specs.Prelude.{◌≡◌, ◌++◌, ◌∷◌, [], List, Some, Ok, IfOk};
ghost use Rattle.std.specs.Option.{option_copied};
ghost use Rattle.ae_core.specs.declared.formulas.Formula.{Formula, Eq, Lt, Le, Not, Or, out-Formula};
ghost use Rattle.ae_core.specs.declared.terms.Head.TheVariants as head;
ghost use Rattle.ae_core.specs.declared.terms.Term.{Term, Apply};
ghost use Rattle.ae_elab.specs.Elaboration as rule;
ghost use Rattle.ae_elaboration.specs.Inner.Conjunctions.{all_with};
ghost use Rattle.ae_elab.specs.Nodes.{relation_of};

use ae_core::copies::{copy_formula, copy_sorts, copy_term};
use ae_core::formulas::{Formula, Quant};
use ae_core::lists::{Boxed, List};
use ae_core::terms::{Head, Sort, Term};
use ae_elab::nodes::Relation;
use ae_syntax::exprs::Quantifier;
use std::alloc::{AllocError, Global};

/// The term `true`.
pub fn true_term(alloc: Global) -> Term
    ensures { result ≡ rule.true_term }
{
    Term::Apply {
        head: Head::True,
        sorts: List::new(alloc),
        args: List::new(alloc),
    }
}

/// A term of sort `bool` in a formula's place: it is equal to `true`.
pub fn holds(alloc: Global, term: Term) -> Formula
    ensures { result ≡ Eq term rule.true_term }
{
    Formula::Eq {
        left: term,
        right: true_term(alloc),
    }
}

/// `not a`.
pub fn negation(alloc: Global, formula: Formula) -> Result<Formula, AllocError>
    ensures { IfOk result (λ f. f ≡ Not formula) }
{
    Ok(Formula::Not(Boxed::new(alloc, formula)?))
}

// Both boxes, or the first error.
fn both(
    first: Result<Boxed<Formula>, AllocError>,
    second: Result<Boxed<Formula>, AllocError>,
) -> Result<(Boxed<Formula>, Boxed<Formula>), AllocError>
    ensures first { IfOk result (λ boxes. first ≡ Ok boxes.0) }
    ensures second { IfOk result (λ boxes. second ≡ Ok boxes.1) }
{
    let first = first?;
    let second = second?;
    Ok((first, second))
}

fn disjunction(alloc: Global, left: Formula, right: Formula) -> Result<Formula, AllocError>
    ensures { IfOk result (λ f. f ≡ Or left right) }
{
    let first = Boxed::new(alloc, left);
    let second = Boxed::new(alloc, right);
    let (left, right) = both(first, second)?;
    Ok(Formula::Or(left, right))
}

// `not a` in a box.
fn denial(alloc: Global, formula: Formula) -> Result<Boxed<Formula>, AllocError>
    ensures { IfOk result (λ b. b ≡ Not formula) }
{
    let denied = negation(alloc, formula)?;
    let held = Boxed::new(alloc, denied)?;
    Ok(held)
}

/// `a -> b`: `not a or b`.
pub fn implication(alloc: Global, left: Formula, right: Formula) -> Result<Formula, AllocError>
    ensures { IfOk result (λ f. f ≡ Or (Not left) right) }
{
    let second = Boxed::new(alloc, right);
    let first = denial(alloc, left);
    let (denied, right) = both(first, second)?;
    Ok(Formula::Or(denied, right))
}

// `not c or a` in a box.
fn where_true(
    alloc: Global,
    condition: &Formula,
    positive: Formula,
) -> Result<Boxed<Formula>, AllocError>
    ensures { IfOk result (λ b. b ≡ Or (Not condition.now) positive) }
{
    let positive = Boxed::new(alloc, positive)?;
    let copy = copy_formula(alloc, condition)?;
    let denied = denial(alloc, copy)?;
    let held = Boxed::new(alloc, Formula::Or(denied, positive))?;
    Ok(held)
}

// `c or b` in a box.
fn where_false(
    alloc: Global,
    condition: Formula,
    negative: Formula,
) -> Result<Boxed<Formula>, AllocError>
    ensures { IfOk result (λ b. b ≡ Or condition negative) }
{
    let whole = disjunction(alloc, condition, negative)?;
    let held = Boxed::new(alloc, whole)?;
    Ok(held)
}

/// `if c then a else b` between formulas: `(not c or a) and (c or b)`.
pub fn either_way(
    alloc: Global,
    condition: Formula,
    positive: Formula,
    negative: Formula,
) -> Result<Formula, AllocError>
    ensures { IfOk result (λ f. f ≡ rule.either_way condition positive negative) }
{
    let yes = where_true(alloc, &condition, positive);
    let no = where_false(alloc, condition, negative);
    let (first, second) = both(yes, no)?;
    Ok(Formula::And(first, second))
}

// `not (t = u)`.
fn unequal(alloc: Global, left: &Term, right: &Term) -> Result<Boxed<Formula>, AllocError>
    ensures { IfOk result (λ f. f ≡ Not (Eq left.now right.now)) }
{
    let first = copy_term(alloc, left)?;
    let second = copy_term(alloc, right)?;
    let equation = Formula::Eq {
        left: first,
        right: second,
    };
    let whole = denial(alloc, equation)?;
    Ok(whole)
}

fn less(left: Term, right: Term) -> Formula
    ensures { result ≡ Lt left right }
{
    Formula::Lt { left, right }
}

fn at_most(left: Term, right: Term) -> Formula
    ensures { result ≡ Le left right }
{
    Formula::Le { left, right }
}

/// A relation between two terms as it is written: `<>` is what `=` is not, and `>` and `>=` are `<` and `<=` turned.
pub fn related(
    alloc: Global,
    relation: Relation,
    left: Term,
    right: Term,
) -> Result<Formula, AllocError>
    ensures { IfOk result (λ f. f ≡ rule.related (relation_of relation) left right) }
{
    match relation {
        Relation::Equal => Ok(Formula::Eq { left, right }),
        Relation::Unequal => {
            let denied = negation(alloc, Formula::Eq { left, right })?;
            Ok(denied)
        }
        Relation::Less => Ok(less(left, right)),
        Relation::AtMost => Ok(at_most(left, right)),
        Relation::Greater => {
            let turned = less(right, left);
            Ok(turned)
        }
        Relation::AtLeast => {
            let turned = at_most(right, left);
            Ok(turned)
        }
    }
}

// A formula behind others, in a conjunction that is grouped to the left.
fn joined(
    alloc: Global,
    before: Option<Boxed<Formula>>,
    formula: Boxed<Formula>,
) -> Result<Boxed<Formula>, AllocError>
    ensures { IfOk result (λ f. (rest : List Formula) → all_with (Some f) rest ≡ all_with before (formula ∷ rest)) }
{
    match before {
        None => Ok(formula),
        Some(before) => Boxed::new(alloc, Formula::And(before, formula)),
    }
}

// That a term differs from each of some others, behind other formulas.
fn and_differences(
    alloc: Global,
    before: Option<Boxed<Formula>>,
    term: &Term,
    others: &[Term],
) -> Result<Option<Boxed<Formula>>, AllocError>
    ensures { IfOk result (λ w. (rest : List Formula) → all_with w rest ≡ all_with before (rule.differs_from term.now others.now ++ rest)) }
{
    let mut whole = before;
    for other in others {
        let differs = unequal(alloc, term, other)?;
        whole = Some(joined(alloc, whole, differs)?);
    }
    Ok(whole)
}

/// `distinct(..)`: that the terms differ from each other, as a conjunction that is grouped to the left.
pub fn distinct(alloc: Global, terms: &[Term]) -> Result<Formula, AllocError>
    ensures { IfOk result (λ f. f ≡ rule.all_true (rule.differences terms.now)) }
{
    let mut whole = None;
    for i in 0..terms.len() {
        whole = and_differences(alloc, whole, &terms[i], &terms[i + 1..])?;
    }
    match whole {
        Some(formula) => Ok(formula.into_inner()),
        None => Ok(Formula::True),
    }
}

// The value that is written for a field.
fn value_at<'a>(place: usize, places: &[usize], values: &'a [Term]) -> Option<&'a Term>
    ensures { option_copied result ≡ rule.value_at place places.now values.now }
{
    for i in 0..places.len() {
        if i >= values.len() {
            return None;
        }
        if places[i] == place {
            return Some(&values[i]);
        }
    }
    None
}

// A field of a record term.
fn field_of(
    alloc: Global,
    of: usize,
    place: usize,
    sorts: &[Sort],
    base: &Term,
) -> Result<Term, AllocError>
    ensures { IfOk result (λ t. t ≡ Apply (head.Field of place) sorts.now (base.now ∷ [])) }
{
    let sorts = copy_sorts(alloc, sorts)?;
    let mut args = List::new(alloc);
    args.push(copy_term(alloc, base)?)?;
    Ok(Term::Apply {
        head: Head::Field { of, place },
        sorts,
        args,
    })
}

// The value of a field: what is written for it, or the field of `base`.
fn field_value(
    alloc: Global,
    of: usize,
    place: usize,
    sorts: &[Sort],
    base: &Term,
    places: &[usize],
    values: &[Term],
) -> Result<Term, AllocError>
    ensures { IfOk result (λ t. t ≡ rule.field_term of sorts.now base.now place (rule.value_at place places.now values.now)) }
{
    match value_at(place, places, values) {
        Some(value) => {
            let copy = copy_term(alloc, value)?;
            Ok(copy)
        }
        None => {
            let field = field_of(alloc, of, place, sorts, base)?;
            Ok(field)
        }
    }
}

/// A record with all its fields, of a type with `count` of them: the values that are written, and the fields of `base` where
/// none is. `places` are the places of the written fields, and `values` their values.
pub fn record_of(
    alloc: Global,
    of: usize,
    sorts: List<Sort>,
    count: usize,
    base: &Term,
    places: &[usize],
    values: &[Term],
) -> Result<Term, AllocError>
    ensures { IfOk result (λ t. t ≡ rule.record_of of sorts count base.now places.now values.now) }
{
    let args = fields_of(alloc, of, sorts.as_slice(), count, base, places, values)?;
    Ok(Term::Apply {
        head: Head::Build(of),
        sorts,
        args,
    })
}

// The values of all fields of a record.
fn fields_of(
    alloc: Global,
    of: usize,
    sorts: &[Sort],
    count: usize,
    base: &Term,
    places: &[usize],
    values: &[Term],
) -> Result<List<Term>, AllocError>
    ensures { IfOk result (λ ts. ts ≡ rule.fields_from count 0 of sorts.now base.now places.now values.now) }
{
    let mut args = List::new(alloc);
    for place in 0..count {
        args.push(field_value(alloc, of, place, sorts, base, places, values)?)?;
    }
    Ok(args)
}

// A block of these variables.
fn block(
    alloc: Global,
    sorts: List<Sort>,
    triggers: List<List<Term>>,
    body: Formula,
) -> Result<Quant, AllocError>
    ensures { IfOk result (λ q. q ≡ rule.block sorts triggers body) }
{
    let body = Boxed::new(alloc, body)?;
    Ok(Quant {
        sorts,
        triggers,
        body,
    })
}

// A block with more variables before its own.
fn merged(sorts: List<Sort>, inner: Quant) -> Result<Quant, AllocError>
    ensures { IfOk result (λ q. q ≡ rule.merged_quant sorts inner) }
{
    let Quant {
        sorts: own,
        triggers,
        body,
    } = inner;
    let mut all = sorts;
    all.append(own)?;
    Ok(Quant {
        sorts: all,
        triggers,
        body,
    })
}

// `forall` without triggers.
fn all_over(alloc: Global, sorts: List<Sort>, body: Formula) -> Result<Formula, AllocError>
    ensures { IfOk result (λ f. f ≡ rule.all_over sorts body (out-Formula body)) }
{
    match body {
        Formula::All(inner) => Ok(Formula::All(merged(sorts, inner)?)),
        other => Ok(Formula::All(block(alloc, sorts, List::new(alloc), other)?)),
    }
}

// `exists` without triggers.
fn some_over(alloc: Global, sorts: List<Sort>, body: Formula) -> Result<Formula, AllocError>
    ensures { IfOk result (λ f. f ≡ rule.some_over sorts body (out-Formula body)) }
{
    match body {
        Formula::Ex(inner) => Ok(Formula::Ex(merged(sorts, inner)?)),
        other => Ok(Formula::Ex(block(alloc, sorts, List::new(alloc), other)?)),
    }
}

// A block without triggers.
fn without_triggers(
    alloc: Global,
    quantifier: Quantifier,
    sorts: List<Sort>,
    body: Formula,
) -> Result<Formula, AllocError>
    ensures { IfOk result (λ f. f ≡ rule.over quantifier sorts [] body) }
{
    match quantifier {
        Quantifier::Forall => {
            let all = all_over(alloc, sorts, body)?;
            Ok(all)
        }
        Quantifier::Exists => {
            let some = some_over(alloc, sorts, body)?;
            Ok(some)
        }
    }
}

// A block with triggers.
fn with_triggers(
    alloc: Global,
    quantifier: Quantifier,
    sorts: List<Sort>,
    triggers: List<List<Term>>,
    body: Formula,
) -> Result<Formula, AllocError>
    ensures { IfOk result (λ f. (t : List Term) (ts : List (List Term)) → triggers ≡ t ∷ ts → f ≡ rule.over quantifier sorts triggers body) }
{
    let quant = block(alloc, sorts, triggers, body)?;
    match quantifier {
        Quantifier::Forall => Ok(Formula::All(quant)),
        Quantifier::Exists => Ok(Formula::Ex(quant)),
    }
}

/// A block of variables with its triggers round a formula. Without triggers it is one with a body that is a block of the same
/// quantifier.
pub fn over(
    alloc: Global,
    quantifier: Quantifier,
    sorts: List<Sort>,
    triggers: List<List<Term>>,
    body: Formula,
) -> Result<Formula, AllocError>
    ensures { IfOk result (λ f. f ≡ rule.over quantifier sorts triggers body) }
{
    if triggers.is_empty() {
        let formula = without_triggers(alloc, quantifier, sorts, body)?;
        Ok(formula)
    } else {
        let whole = with_triggers(alloc, quantifier, sorts, triggers, body)?;
        Ok(whole)
    }
}
