//! Whether a pattern's fresh constants have no type variables in their sorts.
ghost use Rattle.std.specs.Prelude.{◌≡◌, IsTrue};
ghost use Rattle.std.specs.List.{list_any};
ghost use Rattle.ae_matches.specs.Answers.{HasClosedConstants};
ghost use Rattle.ae_matches.specs.Steps.{fresh_has};

use ae_core::terms::Term;
use ae_trigger::occurrences::has_type_variable;
use ae_trigger::patterns::Pattern;

/// Whether a type variable occurs in the sort of a fresh constant of a term.
#[cycle(constant_has)]
#[tactic(auto, using(crate::proofs::Constants::constant_rules))]
fn constant_has(number: usize, term: &Term) -> bool
    ensures { result ≡ fresh_has number term.now }
{
    match term {
        Term::Bound(_) => false,
        Term::Num { .. } => false,
        Term::Fresh { .. } => has_type_variable(number, term),
        Term::Apply { args, .. } => constants_have(number, args.as_slice()),
    }
}

/// Whether it occurs in the sort of a fresh constant of some of the terms.
#[cycle(constant_has)]
fn constants_have(number: usize, terms: &[Term]) -> bool
    ensures { result ≡ list_any (fresh_has number) terms.now }
{
    for term in terms {
        if constant_has(number, term) {
            return true;
        }
    }
    false
}

/// Whether no type variable of a pattern occurs in the sort of a fresh constant of its trigger.
pub fn has_closed_constants(pattern: &Pattern) -> bool
    ensures { IsTrue result → HasClosedConstants pattern.now }
{
    for number in 0..pattern.sort_vars {
        if constants_have(number, pattern.terms.as_slice()) {
            return false;
        }
    }
    true
}
