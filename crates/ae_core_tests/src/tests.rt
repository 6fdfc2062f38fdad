//! The orders, the copies and what puts sorts and terms on a few values. What is expected is read off the ranks of the
//! definition, or written by hand.
use ae_core::copies::{copy_formula, copy_sort, copy_term};
use ae_core::equality::{same_formula, same_term};
use ae_core::formulas::{Formula, Quant};
use ae_core::lists::{Boxed, List};
use ae_core::orders::{compare_formulas, compare_terms};
use ae_core::putting::{instance, substitute};
use ae_core::terms::{Head, Op, Sort, Term};
use std::alloc::{AllocError, Global};
use std::test::Fail;

fn applied(head: Head, sorts: List<Sort>, args: List<Term>) -> Term {
    Term::Apply { head, sorts, args }
}

fn numeral(top: i128, bottom: i128, real: bool) -> Term {
    Term::Num { top, bottom, real }
}

/// A variable and numerals, each before those that follow it.
fn push_numerals(terms: &mut List<Term>) -> Result<(), AllocError> {
    terms.push(Term::Bound(0))?;
    terms.push(Term::Bound(7))?;
    terms.push(numeral(-5, 2, true))?;
    terms.push(numeral(3, 1, false))?;
    terms.push(numeral(3, 1, true))?;
    terms.push(numeral(3, 2, true))
}

/// A fresh constant.
fn fresh(alloc: Global, number: usize, sort: Sort) -> Result<Term, AllocError> {
    let sort = Boxed::new(alloc, sort)?;
    Ok(Term::Fresh { number, sort })
}

/// Two variables as arguments.
fn pair(alloc: Global, first: usize, second: usize) -> Result<List<Term>, AllocError> {
    let mut args = one_term(alloc, Term::Bound(first))?;
    args.push(Term::Bound(second))?;
    Ok(args)
}

/// Fresh constants and what a symbol is applied to, each before those that follow it.
fn push_applied(alloc: Global, terms: &mut List<Term>) -> Result<(), AllocError> {
    terms.push(fresh(alloc, 0, Sort::Unit)?)?;
    terms.push(fresh(alloc, 1, Sort::Int)?)?;
    let symbol = Head::Symbol(4);
    terms.push(applied(symbol, List::new(alloc), List::new(alloc)))?;
    terms.push(applied(symbol, List::new(alloc), one_term(alloc, Term::Bound(9))?))?;
    terms.push(applied(symbol, List::new(alloc), pair(alloc, 9, 0)?))?;
    terms.push(applied(symbol, List::new(alloc), pair(alloc, 9, 1)?))?;
    let sorts = one_sort(alloc, &Sort::Rigid(0))?;
    terms.push(applied(symbol, sorts, List::new(alloc)))
}

/// Heads without arguments, each before those that follow it.
fn push_heads(alloc: Global, terms: &mut List<Term>) -> Result<(), AllocError> {
    terms.push(applied(Head::Int(Op::Sub), List::new(alloc), List::new(alloc)))?;
    terms.push(applied(Head::Real(Op::Add), List::new(alloc), List::new(alloc)))?;
    terms.push(applied(Head::Void, List::new(alloc), List::new(alloc)))
}

/// Terms, each before those that follow it.
fn ascending_terms(alloc: Global) -> Result<List<Term>, AllocError> {
    let mut terms = List::new(alloc);
    push_numerals(&mut terms)?;
    push_applied(alloc, &mut terms)?;
    push_heads(alloc, &mut terms)?;
    Ok(terms)
}

fn literal(alloc: Global, holds: bool) -> Result<Boxed<Formula>, AllocError> {
    Boxed::new(alloc, if holds { Formula::True } else { Formula::False })
}

/// Truth values and relations, each before those that follow it.
fn push_atoms(formulas: &mut List<Formula>) -> Result<(), AllocError> {
    formulas.push(Formula::True)?;
    formulas.push(Formula::False)?;
    formulas.push(Formula::Eq {
        left: Term::Bound(5),
        right: Term::Bound(0),
    })?;
    formulas.push(Formula::Lt {
        left: Term::Bound(0),
        right: Term::Bound(2),
    })?;
    formulas.push(Formula::Lt {
        left: Term::Bound(1),
        right: Term::Bound(0),
    })?;
    formulas.push(Formula::Le {
        left: Term::Bound(0),
        right: Term::Bound(0),
    })
}

/// Formulas of others, each before those that follow it.
fn push_compounds(alloc: Global, formulas: &mut List<Formula>) -> Result<(), AllocError> {
    formulas.push(Formula::Not(literal(alloc, true)?))?;
    formulas.push(Formula::And(literal(alloc, true)?, literal(alloc, false)?))?;
    formulas.push(Formula::And(literal(alloc, false)?, literal(alloc, true)?))?;
    formulas.push(Formula::Or(literal(alloc, true)?, literal(alloc, true)?))?;
    formulas.push(Formula::Xor(literal(alloc, true)?, literal(alloc, true)?))?;
    formulas.push(Formula::Iff(literal(alloc, true)?, literal(alloc, true)?))
}

/// Formulas, each before those that follow it.
fn ascending_formulas(alloc: Global) -> Result<List<Formula>, AllocError> {
    let mut formulas = List::new(alloc);
    push_atoms(&mut formulas)?;
    push_compounds(alloc, &mut formulas)?;
    Ok(formulas)
}

/// Whether a term's copy is the term.
fn term_is_copied(alloc: Global, term: &Term) -> Result<bool, AllocError> {
    let copy = Boxed::new(alloc, copy_term(alloc, term)?)?;
    Ok(same_term(copy.get(), term))
}

/// Whether a formula's copy is the formula.
fn formula_is_copied(alloc: Global, formula: &Formula) -> Result<bool, AllocError> {
    let copy = Boxed::new(alloc, copy_formula(alloc, formula)?)?;
    Ok(same_formula(copy.get(), formula))
}

#[test]
fn orders_terms(rt: HostRuntime) -> Result<(), Fail> {
    let terms = ascending_terms(rt.alloc())?;
    let terms = terms.as_slice();
    for i in 0..terms.len() {
        assert!(rt; term_is_copied(rt.alloc(), &terms[i])?, "copy of term {i}");
        for j in 0..terms.len() {
            assert_eq!(rt;
                compare_terms(&terms[i], &terms[j]),
                i.cmp(&j),
                "terms {i} and {j}"
            );
        }
    }
    Ok(())
}

#[test]
fn orders_formulas(rt: HostRuntime) -> Result<(), Fail> {
    let formulas = ascending_formulas(rt.alloc())?;
    let formulas = formulas.as_slice();
    for i in 0..formulas.len() {
        assert!(rt;
            formula_is_copied(rt.alloc(), &formulas[i])?,
            "copy of formula {i}"
        );
        for j in 0..formulas.len() {
            assert_eq!(rt;
                compare_formulas(&formulas[i], &formulas[j]),
                i.cmp(&j),
                "formulas {i} and {j}"
            );
        }
    }
    Ok(())
}

fn one_sort(alloc: Global, sort: &Sort) -> Result<List<Sort>, AllocError> {
    let mut sorts = List::new(alloc);
    sorts.push(copy_sort(alloc, sort)?)?;
    Ok(sorts)
}

fn one_term(alloc: Global, term: Term) -> Result<List<Term>, AllocError> {
    let mut terms = List::new(alloc);
    terms.push(term)?;
    Ok(terms)
}

/// `p [s] x`, where p is symbol 2 and x the innermost variable.
fn predicate(alloc: Global, sort: &Sort) -> Result<Boxed<Formula>, AllocError> {
    let sorts = one_sort(alloc, sort)?;
    let args = one_term(alloc, Term::Bound(0))?;
    Boxed::new(
        alloc,
        Formula::Pred {
            symbol: 2,
            sorts,
            args,
        },
    )
}

/// The trigger `f [s] x`, where f is symbol 1 and x the innermost variable.
fn trigger(alloc: Global, sort: &Sort) -> Result<List<Term>, AllocError> {
    let sorts = one_sort(alloc, sort)?;
    let args = one_term(alloc, Term::Bound(0))?;
    one_term(alloc, applied(Head::Symbol(1), sorts, args))
}

/// `forall x : s [f [s] x]. p [s] x`.
fn for_all(alloc: Global, sort: &Sort) -> Result<Boxed<Formula>, AllocError> {
    let sorts = one_sort(alloc, sort)?;
    let mut triggers = List::new(alloc);
    triggers.push(trigger(alloc, sort)?)?;
    let body = predicate(alloc, sort)?;
    Boxed::new(
        alloc,
        Formula::All(Quant {
            sorts,
            triggers,
            body,
        }),
    )
}

/// `exists z : int. z = x - y` of these x and y.
fn some_difference(alloc: Global, args: List<Term>) -> Result<Boxed<Formula>, AllocError> {
    let right = applied(Head::Int(Op::Sub), List::new(alloc), args);
    let body = Boxed::new(
        alloc,
        Formula::Eq {
            left: Term::Bound(0),
            right,
        },
    )?;
    let sorts = one_sort(alloc, &Sort::Int)?;
    Boxed::new(
        alloc,
        Formula::Ex(Quant {
            sorts,
            triggers: List::new(alloc),
            body,
        }),
    )
}

/// Whether the formula at a sort has at int this instance.
fn is_instance(alloc: Global, general: &Sort, wanted: &Sort) -> Result<bool, AllocError> {
    let sorts = one_sort(alloc, &Sort::Int)?;
    let general = for_all(alloc, general)?;
    let found = Boxed::new(alloc, instance(alloc, general.get(), sorts.as_slice())?)?;
    let wanted = for_all(alloc, wanted)?;
    Ok(same_formula(found.get(), wanted.get()))
}

#[test]
fn puts_sorts(rt: HostRuntime) -> Result<(), Fail> {
    let at_int = is_instance(rt.alloc(), &Sort::Var(0), &Sort::Int)?;
    assert!(rt; at_int, "instance at int");
    let kept = is_instance(rt.alloc(), &Sort::Rigid(0), &Sort::Rigid(0))?;
    assert!(rt; kept, "a goal's variable");
    Ok(())
}

/// `forall x y : int. exists z : int. z = x - y`, where x has the distance 2 in the body, and y 1.
fn general_difference(alloc: Global) -> Result<Quant, AllocError> {
    let mut sorts = one_sort(alloc, &Sort::Int)?;
    sorts.push(Sort::Int)?;
    let body = some_difference(alloc, pair(alloc, 2, 1)?)?;
    Ok(Quant {
        sorts,
        triggers: List::new(alloc),
        body,
    })
}

/// 3 and 5.
fn three_and_five(alloc: Global) -> Result<List<Term>, AllocError> {
    let mut terms = one_term(alloc, numeral(3, 1, false))?;
    terms.push(numeral(5, 1, false))?;
    Ok(terms)
}

/// What comes of 3 for x and 5 for y in that.
fn puts_three_and_five(alloc: Global) -> Result<bool, AllocError> {
    let quant = general_difference(alloc)?;
    let terms = three_and_five(alloc)?;
    let found = Boxed::new(alloc, substitute(alloc, &quant, terms.as_slice())?)?;
    let wanted = some_difference(alloc, terms)?;
    Ok(same_formula(found.get(), wanted.get()))
}

#[test]
fn puts_terms_under_inner_blocks(rt: HostRuntime) -> Result<(), Fail> {
    assert!(rt; puts_three_and_five(rt.alloc())?, "3 for x and 5 for y");
    Ok(())
}
