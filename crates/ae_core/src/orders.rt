//! Structural orders of sorts, terms, formulas and literals: by variant, then by the parts from left to right. Without memory, in time linear in the smaller of the two values.
ghost use Rattle.std.specs.Prelude.{◌≡◌, ◌↔◌, Some};
ghost use Rattle.std.specs.declared.cmp.Ordering.TheVariants.{Equal};
ghost use Rattle.std.specs.Cmp.{partial_equiv_from_equiv, partial_order_from_agreeing_total};
ghost use Rattle.std.specs.Ordering.{ordering_then, eq_by_cmp};
ghost use Rattle.std.proofs.Common.{refl};
ghost use Rattle.std.proofs.lemmas.Cmp.{eq_by_cmp_equiv};
ghost use Rattle.ae_core.specs.Inner.TreeOrder.{formula_total};
ghost use Rattle.std.specs.Cmp.Lexicographic.{slice_cmp};
ghost use Rattle.ae_core.specs.Orders.{number, rank, sort_order, sort_tree, op_tree, head_order, head_tree, term_order, term_tree, formula_order, formula_tree, quant_order, lit_order};

use crate::formulas::{Formula, Lit, Quant};
use crate::lists::List;
use crate::terms::{Head, Op, Sort, Term};
use std::cmp::Ordering;

/// A sort's place among the variants.
#[tactic(auto, using(crate::proofs::OrderLaws::sort_trees))]
fn sort_rank(sort: &Sort) -> usize
    ensures { result ≡ rank (sort_tree sort.now) }
{
    match sort {
        Sort::Var(_) => 0,
        Sort::Rigid(_) => 1,
        Sort::Int => 2,
        Sort::Real => 3,
        Sort::Bool => 4,
        Sort::Unit => 5,
        Sort::Named { .. } => 6,
    }
}

/// The structural order of sorts.
#[cycle(compare_sort)]
#[tactic(auto, using(crate::proofs::OrderLaws::sort_trees))]
pub fn compare_sorts(left: &Sort, right: &Sort) -> Ordering
    ensures order { result ≡ sort_order left.now right.now }
    ensures equal { (result ≡ Equal) ↔ (left.now ≡ right.now) }
{
    match (left, right) {
        (Sort::Var(a), Sort::Var(b)) => a.cmp(b),
        (Sort::Rigid(a), Sort::Rigid(b)) => a.cmp(b),
        (Sort::Int, Sort::Int) => Ordering::Equal,
        (Sort::Real, Sort::Real) => Ordering::Equal,
        (Sort::Bool, Sort::Bool) => Ordering::Equal,
        (Sort::Unit, Sort::Unit) => Ordering::Equal,
        (Sort::Named { head: a, args: s }, Sort::Named { head: b, args: t }) => {
            match a.cmp(b) {
                Ordering::Equal => compare_sort_lists(s.as_slice(), t.as_slice()),
                other => other,
            }
        }
        _ => sort_rank(left).cmp(&sort_rank(right)),
    }
}

/// The order of lists of sorts: the first two that differ decide, and a list comes before the lists that it begins.
#[cycle(compare_sort)]
#[tactic(auto, using(crate::proofs::OrderLaws::sort_trees))]
pub fn compare_sort_lists(left: &[Sort], right: &[Sort]) -> Ordering
    ensures order { result ≡ slice_cmp sort_order left.now right.now }
    ensures equal { (result ≡ Equal) ↔ (left.now ≡ right.now) }
{
    for i in 0..left.len().min(right.len()) {
        match compare_sorts(&left[i], &right[i]) {
            Ordering::Equal => {}
            other => return other,
        }
    }
    left.len().cmp(&right.len())
}

/// An operation's place among the variants.
fn op_rank(op: Op) -> usize
    ensures { number result ≡ op_tree op }
{
    match op {
        Op::Add => 0,
        Op::Sub => 1,
        Op::Neg => 2,
        Op::Mul => 3,
        Op::Div => 4,
        Op::Mod => 5,
    }
}

/// A head's place among the variants.
fn head_rank(head: Head) -> usize
    ensures { result ≡ rank (head_tree head) }
{
    match head {
        Head::Symbol(_) => 0,
        Head::Build(_) => 1,
        Head::Field { .. } => 2,
        Head::Int(_) => 3,
        Head::Real(_) => 4,
        Head::True => 5,
        Head::False => 6,
        Head::Void => 7,
    }
}

/// The structural order of heads.
pub fn compare_heads(left: Head, right: Head) -> Ordering
    ensures order { result ≡ head_order left right }
    ensures equal { (result ≡ Equal) ↔ (left ≡ right) }
{
    match (left, right) {
        (Head::Symbol(a), Head::Symbol(b)) => a.cmp(&b),
        (Head::Build(a), Head::Build(b)) => a.cmp(&b),
        (Head::Field { of: a, place: i }, Head::Field { of: b, place: j }) => {
            a.cmp(&b).then(i.cmp(&j))
        }
        (Head::Int(a), Head::Int(b)) => op_rank(a).cmp(&op_rank(b)),
        (Head::Real(a), Head::Real(b)) => op_rank(a).cmp(&op_rank(b)),
        (Head::True, Head::True) => Ordering::Equal,
        (Head::False, Head::False) => Ordering::Equal,
        (Head::Void, Head::Void) => Ordering::Equal,
        _ => head_rank(left).cmp(&head_rank(right)),
    }
}

/// What was found so far, and else the order of two lists of sorts.
fn then_sorts(found: Ordering, left: &[Sort], right: &[Sort]) -> Ordering
    ensures { result ≡ ordering_then found (slice_cmp sort_order left.now right.now) }
{
    match found {
        Ordering::Equal => compare_sort_lists(left, right),
        other => other,
    }
}

/// A term's place among the variants.
#[tactic(auto, using(crate::proofs::OrderLaws::term_trees))]
fn term_rank(term: &Term) -> usize
    ensures { result ≡ rank (term_tree term.now) }
{
    match term {
        Term::Bound(_) => 0,
        Term::Num { .. } => 1,
        Term::Fresh { .. } => 2,
        Term::Apply { .. } => 3,
    }
}

/// The structural order of terms.
#[cycle(compare_term)]
#[tactic(auto, using(crate::proofs::OrderLaws::term_trees))]
pub fn compare_terms(left: &Term, right: &Term) -> Ordering
    ensures order { result ≡ term_order left.now right.now }
    ensures equal { (result ≡ Equal) ↔ (left.now ≡ right.now) }
{
    match (left, right) {
        (Term::Bound(a), Term::Bound(b)) => a.cmp(b),
        (
            Term::Num {
                top: a,
                bottom: b,
                real: r,
            },
            Term::Num {
                top: c,
                bottom: d,
                real: s,
            },
        ) => { a.cmp(c).then(b.cmp(d)).then(r.cmp(s)) }
        (Term::Fresh { number: a, sort: s }, Term::Fresh { number: b, sort: t }) => {
            match a.cmp(b) {
                Ordering::Equal => compare_sorts(s.get(), t.get()),
                other => other,
            }
        }
        (
            Term::Apply {
                head: a,
                sorts: s,
                args: us,
            },
            Term::Apply {
                head: b,
                sorts: t,
                args: vs,
            },
        ) => {
            match then_sorts(compare_heads(*a, *b), s.as_slice(), t.as_slice()) {
                Ordering::Equal => compare_term_lists(us.as_slice(), vs.as_slice()),
                other => other,
            }
        }
        _ => term_rank(left).cmp(&term_rank(right)),
    }
}

/// The order of lists of terms: the first two that differ decide, and a list comes before the lists that it begins.
#[cycle(compare_term)]
#[tactic(auto, using(crate::proofs::OrderLaws::term_trees))]
pub fn compare_term_lists(left: &[Term], right: &[Term]) -> Ordering
    ensures order { result ≡ slice_cmp term_order left.now right.now }
    ensures equal { (result ≡ Equal) ↔ (left.now ≡ right.now) }
{
    for i in 0..left.len().min(right.len()) {
        match compare_terms(&left[i], &right[i]) {
            Ordering::Equal => {}
            other => return other,
        }
    }
    left.len().cmp(&right.len())
}

/// The order of lists of triggers.
pub fn compare_trigger_lists(left: &[List<Term>], right: &[List<Term>]) -> Ordering
    ensures order { result ≡ slice_cmp (slice_cmp term_order) left.now right.now }
    ensures equal { (result ≡ Equal) ↔ (left.now ≡ right.now) }
{
    for i in 0..left.len().min(right.len()) {
        match compare_term_lists(left[i].as_slice(), right[i].as_slice()) {
            Ordering::Equal => {}
            other => return other,
        }
    }
    left.len().cmp(&right.len())
}

/// What was found so far, and else the order of two terms.
fn then_terms(found: Ordering, left: &Term, right: &Term) -> Ordering
    ensures { result ≡ ordering_then found (term_order left.now right.now) }
{
    match found {
        Ordering::Equal => compare_terms(left, right),
        other => other,
    }
}

/// What was found so far, and else the order of two lists of terms.
fn then_term_lists(found: Ordering, left: &[Term], right: &[Term]) -> Ordering
    ensures { result ≡ ordering_then found (slice_cmp term_order left.now right.now) }
{
    match found {
        Ordering::Equal => compare_term_lists(left, right),
        other => other,
    }
}

/// What was found so far, and else the order of two lists of triggers.
fn then_triggers(found: Ordering, left: &[List<Term>], right: &[List<Term>]) -> Ordering
    ensures { result ≡ ordering_then found (slice_cmp (slice_cmp term_order) left.now right.now) }
{
    match found {
        Ordering::Equal => compare_trigger_lists(left, right),
        other => other,
    }
}

/// A formula's place among the variants.
#[tactic(auto, using(crate::proofs::OrderLaws::formula_trees))]
fn formula_rank(formula: &Formula) -> usize
    ensures { result ≡ rank (formula_tree formula.now) }
{
    match formula {
        Formula::True => 0,
        Formula::False => 1,
        Formula::Eq { .. } => 2,
        Formula::Lt { .. } => 3,
        Formula::Le { .. } => 4,
        Formula::Pred { .. } => 5,
        Formula::Not(_) => 6,
        Formula::And(_, _) => 7,
        Formula::Or(_, _) => 8,
        Formula::Xor(_, _) => 9,
        Formula::Iff(_, _) => 10,
        Formula::All(_) => 11,
        Formula::Ex(_) => 12,
    }
}

/// The structural order of formulas.
#[cycle(compare_formula)]
#[tactic(auto, using(crate::proofs::OrderLaws::formula_trees))]
pub fn compare_formulas(left: &Formula, right: &Formula) -> Ordering
    ensures order { result ≡ formula_order left.now right.now }
    ensures equal { (result ≡ Equal) ↔ (left.now ≡ right.now) }
{
    match (left, right) {
        (Formula::True, Formula::True) => Ordering::Equal,
        (Formula::False, Formula::False) => Ordering::Equal,
        (Formula::Eq { left: a, right: b }, Formula::Eq { left: c, right: d }) => {
            then_terms(compare_terms(a, c), b, d)
        }
        (Formula::Lt { left: a, right: b }, Formula::Lt { left: c, right: d }) => {
            then_terms(compare_terms(a, c), b, d)
        }
        (Formula::Le { left: a, right: b }, Formula::Le { left: c, right: d }) => {
            then_terms(compare_terms(a, c), b, d)
        }
        (
            Formula::Pred {
                symbol: p,
                sorts: s,
                args: us,
            },
            Formula::Pred {
                symbol: q,
                sorts: t,
                args: vs,
            },
        ) => {
            then_term_lists(
                then_sorts(p.cmp(q), s.as_slice(), t.as_slice()),
                us.as_slice(),
                vs.as_slice(),
            )
        }
        (Formula::Not(a), Formula::Not(b)) => compare_formulas(a.get(), b.get()),
        (Formula::And(a, b), Formula::And(c, d)) => match compare_formulas(a.get(), c.get()) {
            Ordering::Equal => compare_formulas(b.get(), d.get()),
            other => other,
        },
        (Formula::Or(a, b), Formula::Or(c, d)) => match compare_formulas(a.get(), c.get()) {
            Ordering::Equal => compare_formulas(b.get(), d.get()),
            other => other,
        },
        (Formula::Xor(a, b), Formula::Xor(c, d)) => match compare_formulas(a.get(), c.get()) {
            Ordering::Equal => compare_formulas(b.get(), d.get()),
            other => other,
        },
        (Formula::Iff(a, b), Formula::Iff(c, d)) => match compare_formulas(a.get(), c.get()) {
            Ordering::Equal => compare_formulas(b.get(), d.get()),
            other => other,
        },
        (Formula::All(a), Formula::All(b)) => compare_quants(a, b),
        (Formula::Ex(a), Formula::Ex(b)) => compare_quants(a, b),
        _ => formula_rank(left).cmp(&formula_rank(right)),
    }
}

/// The structural order of blocks: the variables' sorts, then the triggers, then the body.
#[cycle(compare_formula)]
#[tactic(auto, using(crate::proofs::OrderLaws::formula_trees))]
pub fn compare_quants(left: &Quant, right: &Quant) -> Ordering
    ensures order { result ≡ quant_order left.now right.now }
    ensures equal { (result ≡ Equal) ↔ (left.now ≡ right.now) }
{
    let sorts = compare_sort_lists(left.sorts.as_slice(), right.sorts.as_slice());
    match then_triggers(sorts, left.triggers.as_slice(), right.triggers.as_slice()) {
        Ordering::Equal => compare_formulas(left.body.get(), right.body.get()),
        other => other,
    }
}

/// The structural order of literals: the formula, then the sign, the negative one first.
pub fn compare_lits(left: &Lit, right: &Lit) -> Ordering
    ensures order { result ≡ lit_order left.now right.now }
    ensures equal { (result ≡ Equal) ↔ (left.now ≡ right.now) }
{
    match compare_formulas(&left.formula, &right.formula) {
        Ordering::Equal => left.positive.cmp(&right.positive),
        other => other,
    }
}

/// The structural order, so that formulas are keys of maps.
impl Ord for Formula {
    ghost cmp = { formula_order };

    ghost total = { formula_total };

    ghost matches_partial_cmp = { λ a b. refl };

    ghost matches_eq = { λ a b. refl };

    fn cmp(&self, other: &Formula) -> Ordering {
        compare_formulas(self, other)
    }
}

impl PartialOrd for Formula {
    ghost partial_cmp = { λ a b. Some (formula_order a b) };

    ghost laws = { partial_order_from_agreeing_total formula_order formula_total (λ a b. refl) (λ a b. refl) };

    fn partial_cmp(&self, other: &Formula) -> Option<Ordering> {
        Some(compare_formulas(self, other))
    }
}

impl Eq for Formula {
    ghost laws = { eq_by_cmp_equiv formula_total };
}

impl PartialEq for Formula {
    ghost eq = { eq_by_cmp formula_order };

    ghost laws = { partial_equiv_from_equiv (eq_by_cmp_equiv formula_total) };

    fn eq(&self, other: &Formula) -> bool {
        compare_formulas(self, other).is_eq()
    }
}
