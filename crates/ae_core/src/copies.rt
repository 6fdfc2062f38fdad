//! Copies: each is equal to what it copies.
ghost use Rattle.std.specs.Prelude.{◌≡◌, IfOk};

use crate::formulas::{Clause, Formula, Lit, Quant};
use crate::lists::{Boxed, List};
use crate::terms::{Sort, Term};
use std::alloc::{AllocError, Global};

/// An equal sort.
pub fn copy_sort(alloc: Global, sort: &Sort) -> Result<Sort, AllocError>
    ensures { IfOk result (λ copy. copy ≡ sort.now) }
{
    match sort {
        Sort::Var(n) => Ok(Sort::Var(*n)),
        Sort::Rigid(n) => Ok(Sort::Rigid(*n)),
        Sort::Int => Ok(Sort::Int),
        Sort::Real => Ok(Sort::Real),
        Sort::Bool => Ok(Sort::Bool),
        Sort::Unit => Ok(Sort::Unit),
        Sort::Named { head, args } => {
            let mut copies = List::new(alloc);
            for arg in args.as_slice() {
                copies.push(copy_sort(alloc, arg)?)?;
            }
            Ok(Sort::Named {
                head: *head,
                args: copies,
            })
        }
    }
}

/// Equal sorts.
pub fn copy_sorts(alloc: Global, sorts: &[Sort]) -> Result<List<Sort>, AllocError>
    ensures { IfOk result (λ copies. copies ≡ sorts.now) }
{
    let mut copies = List::new(alloc);
    for sort in sorts {
        copies.push(copy_sort(alloc, sort)?)?;
    }
    Ok(copies)
}

/// An equal term.
pub fn copy_term(alloc: Global, term: &Term) -> Result<Term, AllocError>
    ensures { IfOk result (λ copy. copy ≡ term.now) }
{
    match term {
        Term::Bound(n) => Ok(Term::Bound(*n)),
        Term::Num { top, bottom, real } => Ok(Term::Num {
            top: *top,
            bottom: *bottom,
            real: *real,
        }),
        Term::Fresh { number, sort } => Ok(Term::Fresh {
            number: *number,
            sort: Boxed::new(alloc, copy_sort(alloc, sort.get())?)?,
        }),
        Term::Apply { head, sorts, args } => {
            let sorts = copy_sorts(alloc, sorts.as_slice())?;
            let mut copies = List::new(alloc);
            for arg in args.as_slice() {
                copies.push(copy_term(alloc, arg)?)?;
            }
            Ok(Term::Apply {
                head: *head,
                sorts,
                args: copies,
            })
        }
    }
}

/// Equal terms.
pub fn copy_terms(alloc: Global, terms: &[Term]) -> Result<List<Term>, AllocError>
    ensures { IfOk result (λ copies. copies ≡ terms.now) }
{
    let mut copies = List::new(alloc);
    for term in terms {
        copies.push(copy_term(alloc, term)?)?;
    }
    Ok(copies)
}

/// Equal triggers.
pub fn copy_triggers(alloc: Global, triggers: &[List<Term>]) -> Result<List<List<Term>>, AllocError>
    ensures { IfOk result (λ copies. copies ≡ triggers.now) }
{
    let mut copies = List::new(alloc);
    for trigger in triggers {
        copies.push(copy_terms(alloc, trigger.as_slice())?)?;
    }
    Ok(copies)
}

#[cycle(formula)]
fn copy_quant(alloc: Global, quant: &Quant) -> Result<Quant, AllocError>
    ensures { IfOk result (λ copy. copy ≡ quant.now) }
{
    Ok(Quant {
        sorts: copy_sorts(alloc, quant.sorts.as_slice())?,
        triggers: copy_triggers(alloc, quant.triggers.as_slice())?,
        body: copy_boxed(alloc, &quant.body)?,
    })
}

/// Two terms, each equal to its own.
fn copy_both(alloc: Global, left: &Term, right: &Term) -> Result<(Term, Term), AllocError>
    ensures left { IfOk result (λ both. both.0 ≡ left.now) }
    ensures right { IfOk result (λ both. both.1 ≡ right.now) }
{
    let left = copy_term(alloc, left)?;
    let right = copy_term(alloc, right)?;
    Ok((left, right))
}

#[cycle(formula)]
fn copy_boxed(alloc: Global, formula: &Boxed<Formula>) -> Result<Boxed<Formula>, AllocError>
    ensures { IfOk result (λ copy. copy ≡ formula.now) }
{
    Boxed::new(alloc, copy_formula(alloc, formula.get())?)
}

/// An equal formula.
#[cycle(formula)]
pub fn copy_formula(alloc: Global, formula: &Formula) -> Result<Formula, AllocError>
    ensures { IfOk result (λ copy. copy ≡ formula.now) }
{
    match formula {
        Formula::True => Ok(Formula::True),
        Formula::False => Ok(Formula::False),
        Formula::Eq { left, right } => {
            let (left, right) = copy_both(alloc, left, right)?;
            Ok(Formula::Eq { left, right })
        }
        Formula::Lt { left, right } => {
            let (left, right) = copy_both(alloc, left, right)?;
            Ok(Formula::Lt { left, right })
        }
        Formula::Le { left, right } => {
            let (left, right) = copy_both(alloc, left, right)?;
            Ok(Formula::Le { left, right })
        }
        Formula::Pred {
            symbol,
            sorts,
            args,
        } => Ok(Formula::Pred {
            symbol: *symbol,
            sorts: copy_sorts(alloc, sorts.as_slice())?,
            args: copy_terms(alloc, args.as_slice())?,
        }),
        Formula::Not(part) => Ok(Formula::Not(copy_boxed(alloc, part)?)),
        Formula::And(left, right) => Ok(Formula::And(
            copy_boxed(alloc, left)?,
            copy_boxed(alloc, right)?,
        )),
        Formula::Or(left, right) => Ok(Formula::Or(
            copy_boxed(alloc, left)?,
            copy_boxed(alloc, right)?,
        )),
        Formula::Xor(left, right) => Ok(Formula::Xor(
            copy_boxed(alloc, left)?,
            copy_boxed(alloc, right)?,
        )),
        Formula::Iff(left, right) => Ok(Formula::Iff(
            copy_boxed(alloc, left)?,
            copy_boxed(alloc, right)?,
        )),
        Formula::All(quant) => Ok(Formula::All(copy_quant(alloc, quant)?)),
        Formula::Ex(quant) => Ok(Formula::Ex(copy_quant(alloc, quant)?)),
    }
}

/// An equal literal.
pub fn copy_lit(alloc: Global, lit: &Lit) -> Result<Lit, AllocError>
    ensures { IfOk result (λ copy. copy ≡ lit.now) }
{
    Ok(Lit {
        positive: lit.positive,
        formula: copy_formula(alloc, &lit.formula)?,
    })
}

/// An equal clause.
pub fn copy_clause(alloc: Global, clause: &[Lit]) -> Result<Clause, AllocError>
    ensures { IfOk result (λ copies. copies ≡ clause.now) }
{
    let mut copies = List::new(alloc);
    for lit in clause {
        copies.push(copy_lit(alloc, lit)?)?;
    }
    Ok(copies)
}
