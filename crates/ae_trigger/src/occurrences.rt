//! What stands in a term: variables, type variables and other terms.
ghost use Rattle.std.specs.Prelude.{◌≡◌, ◌||◌};
ghost use Rattle.std.specs.List.{list_any};
ghost use Rattle.ae_core.specs.Signatures as variables;
ghost use Rattle.ae_rules.specs.Matches as matches;
ghost use Rattle.ae_journal.specs.Triggers as definition;
ghost use Rattle.ae_trigger.specs.Inner.Kept as spec;

use ae_core::equality::same_term;
use ae_core::terms::{Sort, Term};

/// Whether the variable at this distance occurs in a term.
#[cycle(has_variable)]
#[tactic(auto, using(crate::proofs::OccurrenceRules::variable_rules))]
pub fn has_variable(distance: usize, term: &Term) -> bool
    ensures { result ≡ variables.has_variable distance term.now }
{
    match term {
        Term::Bound(other) => distance == *other,
        Term::Num { .. } => false,
        Term::Fresh { .. } => false,
        Term::Apply { args, .. } => have_variable(distance, args.as_slice()),
    }
}

/// Whether it occurs in some of the terms.
#[cycle(has_variable)]
fn have_variable(distance: usize, terms: &[Term]) -> bool
    ensures { result ≡ list_any (variables.has_variable distance) terms.now }
{
    for term in terms {
        if has_variable(distance, term) {
            return true;
        }
    }
    false
}

/// Whether the type variable of this number occurs in a sort.
#[cycle(sort_has)]
#[tactic(auto, using(crate::proofs::OccurrenceRules::sort_rules))]
fn sort_has(number: usize, sort: &Sort) -> bool
    ensures { result ≡ matches.sort_has number sort.now }
{
    match sort {
        Sort::Var(other) => number == *other,
        Sort::Rigid(_) => false,
        Sort::Int => false,
        Sort::Real => false,
        Sort::Bool => false,
        Sort::Unit => false,
        Sort::Named { args, .. } => sorts_have(number, args.as_slice()),
    }
}

/// Whether it occurs in some of the sorts.
#[cycle(sort_has)]
fn sorts_have(number: usize, sorts: &[Sort]) -> bool
    ensures { result ≡ list_any (matches.sort_has number) sorts.now }
{
    for sort in sorts {
        if sort_has(number, sort) {
            return true;
        }
    }
    false
}

/// Whether the type variable of this number occurs in the sorts of a term.
#[cycle(has_type_variable)]
#[tactic(auto, using(crate::proofs::OccurrenceRules::term_rules))]
pub fn has_type_variable(number: usize, term: &Term) -> bool
    ensures { result ≡ matches.term_has number term.now }
{
    match term {
        Term::Bound(_) => false,
        Term::Num { .. } => false,
        Term::Fresh { sort, .. } => sort_has(number, sort.get()),
        Term::Apply { sorts, args, .. } => {
            sorts_have(number, sorts.as_slice()) || have_type_variable(number, args.as_slice())
        }
    }
}

/// Whether it occurs in the sorts of some of the terms.
#[cycle(has_type_variable)]
fn have_type_variable(number: usize, terms: &[Term]) -> bool
    ensures { result ≡ list_any (matches.term_has number) terms.now }
{
    for term in terms {
        if has_type_variable(number, term) {
            return true;
        }
    }
    false
}

/// Whether two terms are the same, as the definitions say it.
fn is_term(left: &Term, right: &Term) -> bool
    ensures { result ≡ spec.is_term left.now right.now }
{
    same_term(left, right)
}

/// Whether a term is among these.
pub fn is_among(terms: &[Term], term: &Term) -> bool
    ensures { result ≡ definition.is_among terms.now term.now }
{
    for other in terms {
        if is_term(other, term) {
            return true;
        }
    }
    false
}

/// Whether a term stands in another, below its head.
#[cycle(stands_inside)]
#[tactic(auto, using(crate::proofs::OccurrenceRules::inside_rules))]
pub fn stands_inside(part: &Term, whole: &Term) -> bool
    ensures { result ≡ definition.stands_inside part.now whole.now }
{
    match whole {
        Term::Bound(_) => false,
        Term::Num { .. } => false,
        Term::Fresh { .. } => false,
        Term::Apply { args, .. } => stands_among(part, args.as_slice()),
    }
}

/// Whether a term is one of these or stands in one of them.
#[cycle(stands_inside)]
fn stands_among(part: &Term, terms: &[Term]) -> bool
    ensures { result ≡ list_any (λ u. spec.is_term u part.now || definition.stands_inside part.now u) terms.now }
{
    for term in terms {
        if is_term(term, part) || stands_inside(part, term) {
            return true;
        }
    }
    false
}
