//! Sorts and terms.
ghost use Rattle.std.specs.Prelude.{◌≡◌, true};
ghost use Rattle.std.specs.List.{list_all};
ghost use Rattle.ae_counts.specs.Inner.Counted as spec;

use crate::numbers::number_counts;
use ae_core::lists::List;
use ae_core::terms::{Sort, Term};

// The numbers that a sort shows have 64 bits.
#[cycle(sorts)]
#[tactic(auto, using(crate::proofs::TreeRules::sort_rules))]
pub(crate) fn sort_counts(sort: &Sort)
    ensures { spec.sort_counts sort.now ≡ true }
{
    match sort {
        Sort::Var(_) => {}
        Sort::Rigid(number) => number_counts(*number),
        Sort::Int => {}
        Sort::Real => {}
        Sort::Bool => {}
        Sort::Unit => {}
        Sort::Named { args, .. } => sorts_count(args.as_slice()),
    }
}

#[cycle(sorts)]
#[tactic(auto, using(crate::proofs::TreeRules::sort_rules))]
pub(crate) fn sorts_count(sorts: &[Sort])
    ensures { list_all spec.sort_counts sorts.now ≡ true }
{
    for sort in sorts {
        sort_counts(sort);
    }
}

// Those that a term shows have.
#[cycle(terms)]
#[tactic(auto, using(crate::proofs::TreeRules::term_rules))]
pub(crate) fn term_counts(term: &Term)
    ensures { spec.term_counts term.now ≡ true }
{
    match term {
        Term::Bound(number) => number_counts(*number),
        Term::Num { .. } => {}
        Term::Fresh { number, sort } => {
            number_counts(*number);
            sort_counts(sort.get());
        }
        Term::Apply { sorts, args, .. } => {
            sorts_count(sorts.as_slice());
            terms_count(args.as_slice());
        }
    }
}

#[cycle(terms)]
#[tactic(auto, using(crate::proofs::TreeRules::term_rules))]
pub(crate) fn terms_count(terms: &[Term])
    ensures { list_all spec.term_counts terms.now ≡ true }
{
    for term in terms {
        term_counts(term);
    }
}

// Those of triggers have.
pub(crate) fn triggers_count(triggers: &[List<Term>])
    ensures { list_all (list_all spec.term_counts) triggers.now ≡ true }
{
    for trigger in triggers {
        terms_count(trigger.as_slice());
    }
}
