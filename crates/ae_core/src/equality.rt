//! Whether two sorts, terms or formulas are the same.
ghost use Rattle.std.specs.Prelude.{◌≡◌, ◌↔◌, IsTrue};

use crate::formulas::{Formula, Lit, Quant};
use crate::lists::List;
use crate::terms::{Head, Sort, Term};

/// Whether two heads are the same.
pub fn same_head(left: Head, right: Head) -> bool
    ensures { IsTrue result ↔ (left ≡ right) }
{
    left == right
}

/// Whether two sorts are the same.
#[cycle(same_sort)]
pub fn same_sort(left: &Sort, right: &Sort) -> bool
    ensures { IsTrue result ↔ (left.now ≡ right.now) }
{
    match (left, right) {
        (Sort::Var(a), Sort::Var(b)) => a == b,
        (Sort::Rigid(a), Sort::Rigid(b)) => a == b,
        (Sort::Int, Sort::Int) => true,
        (Sort::Real, Sort::Real) => true,
        (Sort::Bool, Sort::Bool) => true,
        (Sort::Unit, Sort::Unit) => true,
        (Sort::Named { head: a, args: s }, Sort::Named { head: b, args: t }) => {
            a == b && same_sorts(s.as_slice(), t.as_slice())
        }
        _ => false,
    }
}

/// Whether two lists of sorts are the same.
#[cycle(same_sort)]
pub fn same_sorts(left: &[Sort], right: &[Sort]) -> bool
    ensures { IsTrue result ↔ (left.now ≡ right.now) }
{
    if left.len() != right.len() {
        return false;
    }
    for i in 0..left.len() {
        if !same_sort(&left[i], &right[i]) {
            return false;
        }
    }
    true
}

/// Whether two terms are the same.
#[cycle(same_term)]
pub fn same_term(left: &Term, right: &Term) -> bool
    ensures { IsTrue result ↔ (left.now ≡ right.now) }
{
    match (left, right) {
        (Term::Bound(a), Term::Bound(b)) => a == b,
        (
            Term::Num {
                top: a,
                bottom: c,
                real: e,
            },
            Term::Num {
                top: b,
                bottom: d,
                real: f,
            },
        ) => { a == b && c == d && e == f }
        (Term::Fresh { number: a, sort: s }, Term::Fresh { number: b, sort: t }) => {
            a == b && same_sort(s.get(), t.get())
        }
        (
            Term::Apply {
                head: a,
                sorts: s,
                args: us,
            },
            Term::Apply {
                head: b,
                sorts: t,
                args: vs,
            },
        ) => {
            same_head(*a, *b)
                && same_sorts(s.as_slice(), t.as_slice())
                && same_terms(us.as_slice(), vs.as_slice())
        }
        _ => false,
    }
}

/// Whether two lists of terms are the same.
#[cycle(same_term)]
pub fn same_terms(left: &[Term], right: &[Term]) -> bool
    ensures { IsTrue result ↔ (left.now ≡ right.now) }
{
    if left.len() != right.len() {
        return false;
    }
    for i in 0..left.len() {
        if !same_term(&left[i], &right[i]) {
            return false;
        }
    }
    true
}

/// Whether two formulas are the same.
#[cycle(same_formula)]
pub fn same_formula(left: &Formula, right: &Formula) -> bool
    ensures { IsTrue result ↔ (left.now ≡ right.now) }
{
    match (left, right) {
        (Formula::True, Formula::True) => true,
        (Formula::False, Formula::False) => true,
        (Formula::Eq { left: a, right: b }, Formula::Eq { left: c, right: d }) => {
            same_term(a, c) && same_term(b, d)
        }
        (Formula::Lt { left: a, right: b }, Formula::Lt { left: c, right: d }) => {
            same_term(a, c) && same_term(b, d)
        }
        (Formula::Le { left: a, right: b }, Formula::Le { left: c, right: d }) => {
            same_term(a, c) && same_term(b, d)
        }
        (
            Formula::Pred {
                symbol: p,
                sorts: s,
                args: us,
            },
            Formula::Pred {
                symbol: q,
                sorts: t,
                args: vs,
            },
        ) => {
            p == q
                && same_sorts(s.as_slice(), t.as_slice())
                && same_terms(us.as_slice(), vs.as_slice())
        }
        (Formula::Not(a), Formula::Not(b)) => same_formula(a.get(), b.get()),
        (Formula::And(a, b), Formula::And(c, d)) => {
            same_formula(a.get(), c.get()) && same_formula(b.get(), d.get())
        }
        (Formula::Or(a, b), Formula::Or(c, d)) => {
            same_formula(a.get(), c.get()) && same_formula(b.get(), d.get())
        }
        (Formula::Xor(a, b), Formula::Xor(c, d)) => {
            same_formula(a.get(), c.get()) && same_formula(b.get(), d.get())
        }
        (Formula::Iff(a, b), Formula::Iff(c, d)) => {
            same_formula(a.get(), c.get()) && same_formula(b.get(), d.get())
        }
        (Formula::All(a), Formula::All(b)) => same_quant(a, b),
        (Formula::Ex(a), Formula::Ex(b)) => same_quant(a, b),
        _ => false,
    }
}

/// Whether two blocks are the same.
#[cycle(same_formula)]
pub fn same_quant(left: &Quant, right: &Quant) -> bool
    ensures { IsTrue result ↔ (left.now ≡ right.now) }
{
    same_sorts(left.sorts.as_slice(), right.sorts.as_slice())
        && same_triggers(left.triggers.as_slice(), right.triggers.as_slice())
        && same_formula(left.body.get(), right.body.get())
}

/// Whether two lists of triggers are the same.
pub fn same_triggers(left: &[List<Term>], right: &[List<Term>]) -> bool
    ensures { IsTrue result ↔ (left.now ≡ right.now) }
{
    if left.len() != right.len() {
        return false;
    }
    for i in 0..left.len() {
        if !same_terms(left[i].as_slice(), right[i].as_slice()) {
            return false;
        }
    }
    true
}

/// Whether two literals are the same.
pub fn same_lit(left: &Lit, right: &Lit) -> bool
    ensures { IsTrue result ↔ (left.now ≡ right.now) }
{
    left.positive == right.positive && same_formula(&left.formula, &right.formula)
}
