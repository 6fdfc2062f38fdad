//! The sizes of sorts, terms and formulas: each part is counted at each place where it stands.
ghost use Rattle.std.specs.Prelude.{◌≡◌, ◌↔◌, IsTrue};
ghost use Rattle.ae_formula_sizes.specs.Inner.Counted as spec;
ghost use Rattle.ae_journal.specs.Sizes.{IsSmall};

use crate::counting::{Size, both, is_within, leaf, nothing, round};
use ae_core::formulas::{Formula, Quant};
use ae_core::lists::List;
use ae_core::terms::{Sort, Term};

/// The size of a sort.
#[cycle(sorts)]
#[tactic(auto, using(crate::proofs::SortSizes::sort_rules))]
fn size_of_sort(sort: &Sort) -> Size
    ensures { result ≡ spec.size_of_sort sort.now }
{
    match sort {
        Sort::Var(_) => leaf(),
        Sort::Rigid(_) => leaf(),
        Sort::Int => leaf(),
        Sort::Real => leaf(),
        Sort::Bool => leaf(),
        Sort::Unit => leaf(),
        Sort::Named { args, .. } => round(size_of_sorts(args.as_slice())),
    }
}

/// The size of sorts beside each other.
#[cycle(sorts)]
#[tactic(auto, using(crate::proofs::SortSizes::sort_rules))]
fn size_of_sorts(sorts: &[Sort]) -> Size
    ensures { result ≡ spec.size_of_sorts sorts.now }
{
    let mut size = nothing();
    for sort in sorts {
        size = both(size, size_of_sort(sort));
    }
    size
}

/// The size of a term.
#[cycle(terms)]
#[tactic(auto, using(crate::proofs::TermSizes::term_rules))]
fn size_of_term(term: &Term) -> Size
    ensures { result ≡ spec.size_of_term term.now }
{
    match term {
        Term::Bound(_) => leaf(),
        Term::Num { .. } => leaf(),
        Term::Fresh { sort, .. } => round(size_of_sort(sort.get())),
        Term::Apply { sorts, args, .. } => round(both(
            size_of_sorts(sorts.as_slice()),
            size_of_terms(args.as_slice()),
        )),
    }
}

/// The size of terms beside each other.
#[cycle(terms)]
#[tactic(auto, using(crate::proofs::TermSizes::term_rules))]
fn size_of_terms(terms: &[Term]) -> Size
    ensures { result ≡ spec.size_of_terms terms.now }
{
    let mut size = nothing();
    for term in terms {
        size = both(size, size_of_term(term));
    }
    size
}

/// The size of triggers beside each other.
#[tactic(auto, using(crate::proofs::TermSizes::term_rules))]
fn size_of_triggers(triggers: &[List<Term>]) -> Size
    ensures { result ≡ spec.size_of_triggers triggers.now }
{
    let mut size = nothing();
    for trigger in triggers {
        size = both(size, size_of_terms(trigger.as_slice()));
    }
    size
}

/// The size of an equation or an inequality.
fn size_of_sides(left: &Term, right: &Term) -> Size
    ensures { result ≡ spec.round (spec.both (spec.size_of_term left.now) (spec.size_of_term right.now)) }
{
    round(both(size_of_term(left), size_of_term(right)))
}

/// The size of a block beside its node.
#[cycle(formulas)]
#[tactic(auto, using(crate::proofs::FormulaSizes::formula_rules))]
fn size_of_quant(quant: &Quant) -> Size
    ensures { result ≡ spec.size_of_quant quant.now }
{
    let sorts = size_of_sorts(quant.sorts.as_slice());
    let triggers = size_of_triggers(quant.triggers.as_slice());
    both(sorts, both(triggers, size_of_formula(quant.body.get())))
}

/// The size of a formula.
#[cycle(formulas)]
#[tactic(auto, using(crate::proofs::FormulaSizes::formula_rules))]
fn size_of_formula(formula: &Formula) -> Size
    ensures { result ≡ spec.size_of_formula formula.now }
{
    match formula {
        Formula::True => leaf(),
        Formula::False => leaf(),
        Formula::Eq { left, right } => size_of_sides(left, right),
        Formula::Lt { left, right } => size_of_sides(left, right),
        Formula::Le { left, right } => size_of_sides(left, right),
        Formula::Pred { sorts, args, .. } => round(both(
            size_of_sorts(sorts.as_slice()),
            size_of_terms(args.as_slice()),
        )),
        Formula::Not(part) => round(size_of_formula(part.get())),
        Formula::And(left, right) => {
            round(both(size_of_formula(left.get()), size_of_formula(right.get())))
        }
        Formula::Or(left, right) => {
            round(both(size_of_formula(left.get()), size_of_formula(right.get())))
        }
        Formula::Xor(left, right) => {
            round(both(size_of_formula(left.get()), size_of_formula(right.get())))
        }
        Formula::Iff(left, right) => {
            round(both(size_of_formula(left.get()), size_of_formula(right.get())))
        }
        Formula::All(quant) => round(size_of_quant(quant)),
        Formula::Ex(quant) => round(size_of_quant(quant)),
    }
}

/// Whether a formula has at most 1,000,000 nodes, at 4,000 levels at most. It takes no memory.
pub fn is_small(formula: &Formula) -> bool
    ensures { IsTrue result ↔ IsSmall formula.now }
{
    is_within(size_of_formula(formula))
}
