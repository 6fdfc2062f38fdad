//! Sorts put for the type variables of a sort, a term or a formula, and terms put for the variables of a block.
ghost use Rattle.std.specs.Prelude.{◌≡◌, IfOk, map, ◌+◌};
ghost use Rattle.ae_core.specs.Putting as spec;

use crate::copies::{copy_sort, copy_sorts, copy_term};
use crate::formulas::{Formula, Quant};
use crate::lists::{Boxed, List, at};
use crate::terms::{Sort, Term};
use std::alloc::{AllocError, Global};

/// A sort with sorts put for its type variables.
#[cycle(put)]
#[tactic(auto, using(crate::proofs::PuttingLaws::put_sort_rules))]
pub fn put_sort(alloc: Global, sort: &Sort, sorts: &[Sort]) -> Result<Sort, AllocError>
    ensures { IfOk result (λ s. s ≡ spec.put_sort sorts.now sort.now) }
{
    match sort {
        Sort::Var(i) => match at(sorts, *i) {
            None => Ok(Sort::Var(*i)),
            Some(found) => copy_sort(alloc, found),
        },
        Sort::Rigid(i) => Ok(Sort::Rigid(*i)),
        Sort::Int => Ok(Sort::Int),
        Sort::Real => Ok(Sort::Real),
        Sort::Bool => Ok(Sort::Bool),
        Sort::Unit => Ok(Sort::Unit),
        Sort::Named { head, args } => {
            let args = put_sorts(alloc, args.as_slice(), sorts)?;
            Ok(Sort::Named { head: *head, args })
        }
    }
}

/// The same for a list of sorts.
#[cycle(put)]
#[tactic(auto, using(crate::proofs::PuttingLaws::put_sort_rules))]
pub fn put_sorts(alloc: Global, into: &[Sort], sorts: &[Sort]) -> Result<List<Sort>, AllocError>
    ensures { IfOk result (λ s. s ≡ map (spec.put_sort sorts.now) into.now) }
{
    let mut copies = List::new(alloc);
    for sort in into {
        copies.push(put_sort(alloc, sort, sorts)?)?;
    }
    Ok(copies)
}

/// The term with sorts put for its type variables.
#[cycle(instance_term)]
#[tactic(auto, using(crate::proofs::PuttingLaws::instance_term_rules))]
pub fn instance_term(alloc: Global, term: &Term, sorts: &[Sort]) -> Result<Term, AllocError>
    ensures { IfOk result (λ t. t ≡ spec.instance_term sorts.now term.now) }
{
    match term {
        Term::Bound(n) => Ok(Term::Bound(*n)),
        Term::Num { top, bottom, real } => Ok(Term::Num {
            top: *top,
            bottom: *bottom,
            real: *real,
        }),
        Term::Fresh { number, sort } => Ok(Term::Fresh {
            number: *number,
            sort: Boxed::new(alloc, put_sort(alloc, sort.get(), sorts)?)?,
        }),
        Term::Apply {
            head,
            sorts: own,
            args,
        } => Ok(Term::Apply {
            head: *head,
            sorts: put_sorts(alloc, own.as_slice(), sorts)?,
            args: instance_terms(alloc, args.as_slice(), sorts)?,
        }),
    }
}

/// The same for a list of terms.
#[cycle(instance_term)]
pub fn instance_terms(
    alloc: Global,
    terms: &[Term],
    sorts: &[Sort],
) -> Result<List<Term>, AllocError>
    ensures { IfOk result (λ ts. ts ≡ map (spec.instance_term sorts.now) terms.now) }
{
    let mut copies = List::new(alloc);
    for term in terms {
        copies.push(instance_term(alloc, term, sorts)?)?;
    }
    Ok(copies)
}

/// The same for the triggers of a block.
fn instance_triggers(
    alloc: Global,
    triggers: &[List<Term>],
    sorts: &[Sort],
) -> Result<List<List<Term>>, AllocError>
    ensures { IfOk result (λ ts. ts ≡ map (map (spec.instance_term sorts.now)) triggers.now) }
{
    let mut copies = List::new(alloc);
    for trigger in triggers {
        copies.push(instance_terms(alloc, trigger.as_slice(), sorts)?)?;
    }
    Ok(copies)
}

#[cycle(instance)]
#[tactic(auto, using(crate::proofs::PuttingLaws::instance_rules))]
fn instance_quant(alloc: Global, quant: &Quant, sorts: &[Sort]) -> Result<Quant, AllocError>
    ensures { IfOk result (λ q. q ≡ spec.instance_quant sorts.now quant.now) }
{
    Ok(Quant {
        sorts: put_sorts(alloc, quant.sorts.as_slice(), sorts)?,
        triggers: instance_triggers(alloc, quant.triggers.as_slice(), sorts)?,
        body: instance_boxed(alloc, &quant.body, sorts)?,
    })
}

/// Two terms with sorts put for their type variables.
fn both_instances(
    alloc: Global,
    left: &Term,
    right: &Term,
    sorts: &[Sort],
) -> Result<(Term, Term), AllocError>
    ensures left { IfOk result (λ both. both.0 ≡ spec.instance_term sorts.now left.now) }
    ensures right { IfOk result (λ both. both.1 ≡ spec.instance_term sorts.now right.now) }
{
    let left = instance_term(alloc, left, sorts)?;
    let right = instance_term(alloc, right, sorts)?;
    Ok((left, right))
}

#[cycle(instance)]
fn instance_boxed(
    alloc: Global,
    formula: &Boxed<Formula>,
    sorts: &[Sort],
) -> Result<Boxed<Formula>, AllocError>
    ensures { IfOk result (λ f. f ≡ spec.instance sorts.now formula.now) }
{
    Boxed::new(alloc, instance(alloc, formula.get(), sorts)?)
}

/// The formula with sorts put for its type variables, the triggers' included.
///
/// There is to be one sort for each type variable of the formula: one that has none stays as it is.
#[cycle(instance)]
#[tactic(auto, using(crate::proofs::PuttingLaws::instance_rules))]
pub fn instance(alloc: Global, formula: &Formula, sorts: &[Sort]) -> Result<Formula, AllocError>
    ensures { IfOk result (λ f. f ≡ spec.instance sorts.now formula.now) }
{
    match formula {
        Formula::True => Ok(Formula::True),
        Formula::False => Ok(Formula::False),
        Formula::Eq { left, right } => {
            let (left, right) = both_instances(alloc, left, right, sorts)?;
            Ok(Formula::Eq { left, right })
        }
        Formula::Lt { left, right } => {
            let (left, right) = both_instances(alloc, left, right, sorts)?;
            Ok(Formula::Lt { left, right })
        }
        Formula::Le { left, right } => {
            let (left, right) = both_instances(alloc, left, right, sorts)?;
            Ok(Formula::Le { left, right })
        }
        Formula::Pred {
            symbol,
            sorts: own,
            args,
        } => Ok(Formula::Pred {
            symbol: *symbol,
            sorts: put_sorts(alloc, own.as_slice(), sorts)?,
            args: instance_terms(alloc, args.as_slice(), sorts)?,
        }),
        Formula::Not(part) => Ok(Formula::Not(instance_boxed(alloc, part, sorts)?)),
        Formula::And(left, right) => Ok(Formula::And(
            instance_boxed(alloc, left, sorts)?,
            instance_boxed(alloc, right, sorts)?,
        )),
        Formula::Or(left, right) => Ok(Formula::Or(
            instance_boxed(alloc, left, sorts)?,
            instance_boxed(alloc, right, sorts)?,
        )),
        Formula::Xor(left, right) => Ok(Formula::Xor(
            instance_boxed(alloc, left, sorts)?,
            instance_boxed(alloc, right, sorts)?,
        )),
        Formula::Iff(left, right) => Ok(Formula::Iff(
            instance_boxed(alloc, left, sorts)?,
            instance_boxed(alloc, right, sorts)?,
        )),
        Formula::All(quant) => Ok(Formula::All(instance_quant(alloc, quant, sorts)?)),
        Formula::Ex(quant) => Ok(Formula::Ex(instance_quant(alloc, quant, sorts)?)),
    }
}

/// The term that stands for the variable at this distance, under `inner` variables of inner blocks.
fn put_variable(
    alloc: Global,
    distance: usize,
    terms: &[Term],
    inner: usize,
) -> Result<Term, AllocError>
    ensures { IfOk result (λ t. t ≡ spec.variable_at inner terms.now distance) }
{
    if distance < inner {
        return Ok(Term::Bound(distance));
    }
    let place = distance - inner;
    if place < terms.len() {
        return copy_term(alloc, &terms[terms.len() - 1 - place]);
    }
    Ok(Term::Bound(distance - terms.len()))
}

#[cycle(put_term)]
#[tactic(auto, using(crate::proofs::PuttingLaws::put_term_rules))]
fn put_term(alloc: Global, term: &Term, terms: &[Term], inner: usize) -> Result<Term, AllocError>
    ensures { IfOk result (λ t. t ≡ spec.put_terms inner terms.now term.now) }
{
    match term {
        Term::Bound(distance) => put_variable(alloc, *distance, terms, inner),
        Term::Num { top, bottom, real } => Ok(Term::Num {
            top: *top,
            bottom: *bottom,
            real: *real,
        }),
        Term::Fresh { number, sort } => Ok(Term::Fresh {
            number: *number,
            sort: Boxed::new(alloc, copy_sort(alloc, sort.get())?)?,
        }),
        Term::Apply { head, sorts, args } => Ok(Term::Apply {
            head: *head,
            sorts: copy_sorts(alloc, sorts.as_slice())?,
            args: put_terms(alloc, args.as_slice(), terms, inner)?,
        }),
    }
}

#[cycle(put_term)]
fn put_terms(
    alloc: Global,
    into: &[Term],
    terms: &[Term],
    inner: usize,
) -> Result<List<Term>, AllocError>
    ensures { IfOk result (λ ts. ts ≡ map (spec.put_terms inner terms.now) into.now) }
{
    let mut copies = List::new(alloc);
    for term in into {
        copies.push(put_term(alloc, term, terms, inner)?)?;
    }
    Ok(copies)
}

fn put_triggers(
    alloc: Global,
    triggers: &[List<Term>],
    terms: &[Term],
    inner: usize,
) -> Result<List<List<Term>>, AllocError>
    ensures { IfOk result (λ ts. ts ≡ map (map (spec.put_terms inner terms.now)) triggers.now) }
{
    let mut copies = List::new(alloc);
    for trigger in triggers {
        copies.push(put_terms(alloc, trigger.as_slice(), terms, inner)?)?;
    }
    Ok(copies)
}

/// A block under `inner` variables. Where these and its own are 2^64 or more, there is no memory for the formula.
#[cycle(put_formula)]
#[tactic(auto, using(crate::proofs::PuttingLaws::put_rules))]
fn put_quant(
    alloc: Global,
    quant: &Quant,
    terms: &[Term],
    inner: usize,
) -> Result<Quant, AllocError>
    ensures { IfOk result (λ q. q ≡ spec.put_quant_in inner terms.now quant.now) }
{
    let within = inner
        .checked_add(quant.sorts.as_slice().len())
        .ok_or(AllocError)?;
    Ok(Quant {
        sorts: copy_sorts(alloc, quant.sorts.as_slice())?,
        triggers: put_triggers(alloc, quant.triggers.as_slice(), terms, within)?,
        body: put_boxed(alloc, &quant.body, terms, within)?,
    })
}

/// Two terms with terms put for the variables beyond `inner`.
fn put_both(
    alloc: Global,
    left: &Term,
    right: &Term,
    terms: &[Term],
    inner: usize,
) -> Result<(Term, Term), AllocError>
    ensures left { IfOk result (λ both. both.0 ≡ spec.put_terms inner terms.now left.now) }
    ensures right { IfOk result (λ both. both.1 ≡ spec.put_terms inner terms.now right.now) }
{
    let left = put_term(alloc, left, terms, inner)?;
    let right = put_term(alloc, right, terms, inner)?;
    Ok((left, right))
}

#[cycle(put_formula)]
fn put_boxed(
    alloc: Global,
    formula: &Boxed<Formula>,
    terms: &[Term],
    inner: usize,
) -> Result<Boxed<Formula>, AllocError>
    ensures { IfOk result (λ f. f ≡ spec.put_formula_in inner terms.now formula.now) }
{
    Boxed::new(alloc, put_formula(alloc, formula.get(), terms, inner)?)
}

#[cycle(put_formula)]
#[tactic(auto, using(crate::proofs::PuttingLaws::put_rules))]
fn put_formula(
    alloc: Global,
    formula: &Formula,
    terms: &[Term],
    inner: usize,
) -> Result<Formula, AllocError>
    ensures { IfOk result (λ f. f ≡ spec.put_formula_in inner terms.now formula.now) }
{
    match formula {
        Formula::True => Ok(Formula::True),
        Formula::False => Ok(Formula::False),
        Formula::Eq { left, right } => {
            let (left, right) = put_both(alloc, left, right, terms, inner)?;
            Ok(Formula::Eq { left, right })
        }
        Formula::Lt { left, right } => {
            let (left, right) = put_both(alloc, left, right, terms, inner)?;
            Ok(Formula::Lt { left, right })
        }
        Formula::Le { left, right } => {
            let (left, right) = put_both(alloc, left, right, terms, inner)?;
            Ok(Formula::Le { left, right })
        }
        Formula::Pred {
            symbol,
            sorts,
            args,
        } => Ok(Formula::Pred {
            symbol: *symbol,
            sorts: copy_sorts(alloc, sorts.as_slice())?,
            args: put_terms(alloc, args.as_slice(), terms, inner)?,
        }),
        Formula::Not(part) => Ok(Formula::Not(put_boxed(alloc, part, terms, inner)?)),
        Formula::And(left, right) => Ok(Formula::And(
            put_boxed(alloc, left, terms, inner)?,
            put_boxed(alloc, right, terms, inner)?,
        )),
        Formula::Or(left, right) => Ok(Formula::Or(
            put_boxed(alloc, left, terms, inner)?,
            put_boxed(alloc, right, terms, inner)?,
        )),
        Formula::Xor(left, right) => Ok(Formula::Xor(
            put_boxed(alloc, left, terms, inner)?,
            put_boxed(alloc, right, terms, inner)?,
        )),
        Formula::Iff(left, right) => Ok(Formula::Iff(
            put_boxed(alloc, left, terms, inner)?,
            put_boxed(alloc, right, terms, inner)?,
        )),
        Formula::All(quant) => Ok(Formula::All(put_quant(alloc, quant, terms, inner)?)),
        Formula::Ex(quant) => Ok(Formula::Ex(put_quant(alloc, quant, terms, inner)?)),
    }
}

/// The body of a block with terms put for the block's variables, the last term for the variable at distance 0.
///
/// The terms are to be closed, one for each variable: they are put as they are under inner blocks.
pub fn substitute(alloc: Global, quant: &Quant, terms: &[Term]) -> Result<Formula, AllocError>
    ensures { IfOk result (λ f. f ≡ spec.put_formula terms.now quant.now.body) }
{
    put_formula(alloc, quant.body.get(), terms, 0)
}
